//! The steps of a replica, as an editor takes them.

ghost use Rattle.std.specs.Prelude.{◌≡◌, ◌<◌, ◌^◌, Option, true, IfOk, IsSome, OnErr, OnOk, int_lt, pos};
ghost use Rattle.ft_op.specs.Document.{empty};
ghost use Rattle.ft_op.specs.WellFormed.{IsWellFormed};
ghost use Rattle.ft_msg.specs.Answers.{Answers, RunsFor, edit_fault_kind, link_fault_kind, process_fault_kind};
ghost use Rattle.ft_json.specs.declared.fields.Field.TheVariants.{MinimumSequenceNumber, ReferenceSequenceNumber};
ghost use Rattle.ft_msg.specs.declared.faults.ProcessFault.TheVariants.{BadNumbers};
ghost use Rattle.ft_msg.specs.Client.{NaiveClient, client_over, drop_link, local_edit};
ghost use Rattle.ft_msg.specs.Process.{numbers_fault, process};
ghost use Rattle.ft_msg.specs.Reached.{IsReached};
ghost use Rattle.ft_msg.specs.WellFormed.{HasNumbersInRange, IsWellFormedMessage};
ghost use Rattle.ft_seqr.specs.declared.refusals.Refusal.TheVariants.{NotConnected};
ghost use Rattle.ft_seqr.specs.Refusals.{refusal_of_edit, refusal_of_process};
ghost use Rattle.ft_changes.specs.Shown.{ShownContent};
ghost use Rattle.ft_changes.specs.Told.{told_of_edit, told_of_entry};
ghost use Rattle.ft_door.specs.Editors.{AddsTold, AnswersStep, IsRefusal, Leads, client_after, joining_as, order_fault};

use ft_base::OutOfMemory;
use ft_changes::{Telling, ViewChanges};
use ft_json::Field;
use ft_msg::{EditFault, Entry, LinkFault, Message, MsgKind, ProcessFault, Replica};
use ft_op::ChannelOp;
use ft_seqr::Refusal;

/// Gives the replica an edit of its own. Returns why it is refused, if it is, and then nothing changed. What changes in the
/// view is added to what is told, if somebody listens.
///
/// Returns `OutOfMemory` where there was no memory, and the replica has stopped then.
pub fn give_edit<R: Telling>(
    replica: &mut R,
    op: &ChannelOp,
    told: &mut Option<ViewChanges>,
) -> Result<Option<Refusal>, OutOfMemory>
    requires { IsWellFormed op.now }
    ensures answers { (x : NaiveClient) → IsReached x → RunsFor (R.state replica.old) x
        → IfOk result (AnswersStep refusal_of_edit (R.state replica.old) (R.state replica.new) (local_edit x op.now)) }
    ensures stops { OnErr result (IsSome (R.state replica.new).stop) }
    ensures leads { (x : NaiveClient) (shown : Option ShownContent) → IsReached x → RunsFor (R.state replica.old) x → Leads shown told.old x
        → IfOk result (λ _. Leads shown told.new (client_after x (local_edit x op.now))) }
{
    match tell_edit(replica, op, told) {
        Ok(()) => Ok(None),
        Err(fault) => {
            let refusal = edit_refusal(fault)?;
            Ok(Some(refusal))
        }
    }
}

/// Gives the replica the next message of the log. Returns why it is refused, if it is, and then nothing changed. What
/// changes in the view is added to what is told, if somebody listens.
///
/// Returns `OutOfMemory` where there was no memory, and the replica has stopped then.
pub fn give_entry<R: Telling>(
    replica: &mut R,
    entry: &Entry,
    told: &mut Option<ViewChanges>,
) -> Result<Option<Refusal>, OutOfMemory>
    requires { IsWellFormedMessage entry.now.msg }
    ensures answers { (x : NaiveClient) → IsReached x → RunsFor (R.state replica.old) x
        → IfOk result (AnswersStep (refusal_of_process entry.now.msg.seq) (R.state replica.old) (R.state replica.new) (process x entry.now)) }
    ensures stops { OnErr result (IsSome (R.state replica.new).stop) }
    ensures leads { (x : NaiveClient) (shown : Option ShownContent) → IsReached x → RunsFor (R.state replica.old) x → Leads shown told.old x
        → IfOk result (λ _. Leads shown told.new (client_after x (process x entry.now))) }
{
    match tell_entry(replica, entry, told) {
        Ok(()) => Ok(None),
        Err(fault) => {
            let refusal = process_refusal(entry.msg.seq, fault)?;
            Ok(Some(refusal))
        }
    }
}

// Gives the replica an edit. Adds what changes in the view, if somebody listens, and nothing after an error.
fn tell_edit<R: Telling>(
    replica: &mut R,
    op: &ChannelOp,
    told: &mut Option<ViewChanges>,
) -> Result<(), EditFault>
    requires { IsWellFormed op.now }
    ensures answers { Answers edit_fault_kind 0 (λ x. local_edit x op.now) (R.state replica.old) (R.state replica.new) result }
    ensures told { OnOk result (AddsTold (λ x. local_edit x op.now) (λ x. told_of_edit x op.now) (R.state replica.old) told.old told.new) }
    ensures same { OnErr result (told.new ≡ told.old) }
{
    let Some(mut changes) = told.take() else {
        return replica.edit(op);
    };
    let answer = replica.edit_telling(op, &mut changes);
    drop(told.replace(changes));
    answer
}

// Gives the replica a message. Adds what changes in the view, if somebody listens, and nothing after an error.
fn tell_entry<R: Telling>(
    replica: &mut R,
    entry: &Entry,
    told: &mut Option<ViewChanges>,
) -> Result<(), ProcessFault>
    requires { IsWellFormedMessage entry.now.msg }
    ensures answers { Answers process_fault_kind entry.now.origin (λ x. process x entry.now) (R.state replica.old) (R.state replica.new) result }
    ensures told { OnOk result (AddsTold (λ x. process x entry.now) (λ x. told_of_entry x entry.now) (R.state replica.old) told.old told.new) }
    ensures same { OnErr result (told.new ≡ told.old) }
{
    let Some(mut changes) = told.take() else {
        return replica.process(entry);
    };
    let answer = replica.process_telling(entry, &mut changes);
    drop(told.replace(changes));
    answer
}

/// The replica begins to join under this number, which it does where it is offline.
///
/// Returns `OutOfMemory` where there was no memory, and the replica has stopped then.
pub fn begin_join<R: Replica>(replica: &mut R, conn: u32) -> Result<(), OutOfMemory>
    ensures answers { (x : NaiveClient) → IsReached x → RunsFor (R.state replica.old) x
        → IfOk result (λ _. RunsFor (R.state replica.new) (joining_as true conn x)) }
    ensures stops { OnErr result (IsSome (R.state replica.new).stop) }
{
    match replica.connect(conn) {
        Ok(()) => Ok(()),
        Err(fault) => link_refusal(fault),
    }
}

/// The replica loses its connection. Returns why that is refused, if it is, and then nothing changed.
///
/// Returns `OutOfMemory` where it had stopped before.
pub fn lose_link<R: Replica>(replica: &mut R) -> Result<Option<Refusal>, OutOfMemory>
    ensures answers { (x : NaiveClient) → IsReached x → RunsFor (R.state replica.old) x
        → IfOk result (AnswersStep (λ _. NotConnected) (R.state replica.old) (R.state replica.new) (drop_link x)) }
    ensures stops { OnErr result (IsSome (R.state replica.new).stop) }
{
    match replica.drop_link() {
        Ok(()) => Ok(None),
        Err(fault) => {
            link_refusal(fault)?;
            Ok(Some(Refusal::NotConnected))
        }
    }
}

// The refusal of an edit.
//
// Returns `OutOfMemory` exactly where the fault is that there was no memory, now or before.
fn edit_refusal(fault: EditFault) -> Result<Refusal, OutOfMemory>
    ensures refusal { IfOk result (λ why. why ≡ refusal_of_edit fault) }
    ensures kind { IfOk result (λ why. IsRefusal (edit_fault_kind fault)) }
    ensures want { OnErr result (¬ IsRefusal (edit_fault_kind fault)) }
{
    match fault {
        EditFault::OutOfMemory | EditFault::Stopped { .. } => Err(OutOfMemory),
        EditFault::IdInUse | EditFault::NoSuchInterval | EditFault::OutOfRange { .. } => {
            Ok(Refusal::from(fault))
        }
    }
}

// The refusal of the message with this number.
//
// Returns `OutOfMemory` exactly where the fault is that there was no memory, now or before.
fn process_refusal(number: u64, fault: ProcessFault) -> Result<Refusal, OutOfMemory>
    ensures refusal { IfOk result (λ why. why ≡ refusal_of_process number fault) }
    ensures kind { IfOk result (λ why. IsRefusal (process_fault_kind fault)) }
    ensures want { OnErr result (¬ IsRefusal (process_fault_kind fault)) }
{
    match fault {
        ProcessFault::OutOfMemory | ProcessFault::Stopped { .. } => Err(OutOfMemory),
        ProcessFault::OutOfOrder { .. } | ProcessFault::BadNumbers { .. } | ProcessFault::NotSent =>
            { Ok(Refusal::of_process(number, fault)) }
    }
}

// Nothing, where a change of the link was refused.
//
// Returns `OutOfMemory` exactly where the fault is that there was no memory, now or before.
fn link_refusal(fault: LinkFault) -> Result<(), OutOfMemory>
    ensures kind { IfOk result (λ why. IsRefusal (link_fault_kind fault)) }
    ensures want { OnErr result (¬ IsRefusal (link_fault_kind fault)) }
{
    match fault {
        LinkFault::OutOfMemory | LinkFault::Stopped { .. } => Err(OutOfMemory),
        LinkFault::AlreadyConnected | LinkFault::NotConnected => Ok(()),
    }
}

/// Why a client with this number and this minimum refuses the message, whoever sent it: it isn't the next one, or its
/// other numbers contradict what is kept.
///
/// Returns `OutOfMemory` where the number is the greatest of 64 bits.
pub fn order_fault(
    number: u64,
    minimum: u64,
    msg: &Message,
) -> Result<Option<ProcessFault>, OutOfMemory>
    requires { HasNumbersInRange msg.now }
    ensures { IfOk result (λ fault. fault ≡ order_fault number minimum msg.now) }
{
    let expected = number.checked_add(1).ok_or(OutOfMemory)?;
    if msg.seq != expected {
        return Ok(Some(ProcessFault::OutOfOrder {
            expected,
            got: msg.seq,
        }));
    }
    Ok(numbers_fault(number, minimum, msg))
}

// The first of its other numbers that contradicts what is kept.
fn numbers_fault(number: u64, minimum: u64, msg: &Message) -> Option<ProcessFault>
    requires { HasNumbersInRange msg.now }
    ensures { result ≡ numbers_fault (client_over (record empty { number = number; minimum = minimum })) (record { msg = msg.now; origin = 0 }) }
{
    let is_op = matches!(msg.kind, MsgKind::Op);
    if is_op && is_below(msg.ref_seq, minimum) {
        return Some(reference_fault(minimum, msg.ref_seq));
    }
    if is_op && is_above(msg.ref_seq, number) {
        return Some(reference_fault(number, msg.ref_seq));
    }
    if msg.min < minimum {
        return Some(minimum_fault(minimum, msg.min));
    }
    if msg.seq < msg.min {
        return Some(minimum_fault(msg.seq, msg.min));
    }
    None
}

// The fault of a reference number.
fn reference_fault(kept: u64, got: i64) -> ProcessFault
    ensures { result ≡ BadNumbers ReferenceSequenceNumber kept got }
{
    ProcessFault::BadNumbers {
        field: Field::ReferenceSequenceNumber,
        kept,
        got,
    }
}

// The fault of a minimum.
fn minimum_fault(kept: u64, got: u64) -> ProcessFault
    requires { got < 2 ^ 53 }
    ensures { result ≡ BadNumbers MinimumSequenceNumber kept (pos got) }
{
    ProcessFault::BadNumbers {
        field: Field::MinimumSequenceNumber,
        kept,
        got: got as i64,
    }
}

// Whether the number is below the count.
fn is_below(number: i64, count: u64) -> bool
    ensures { result ≡ int_lt number (pos count) }
{
    number < 0 || (number as u64) < count
}

// Whether the number is above the count.
fn is_above(number: i64, count: u64) -> bool
    ensures { result ≡ int_lt (pos count) number }
{
    0 <= number && count < number as u64
}
