//! How a replica processes messages of a log.

ghost use Rattle.std.specs.Prelude.{◌≡◌, ◌∷◌, [], Err, OnOk, OnErr, option_copied};
ghost use Rattle.ft_msg.specs.Client.{NaiveClient};
ghost use Rattle.ft_delivery.specs.Deliveries.{CanProcess, HasProcessed, Processes, offered_entry};

use ft_msg::{Entry, Message, Replica};
use ft_seqr::Refusal;
use ft_seqr::same_message::same_message;

/// The next of the messages, if it is the one offered.
pub fn offered_entry<'a>(ahead: &'a [Entry], message: &Message) -> Option<&'a Entry>
    ensures { option_copied result ≡ offered_entry message.now ahead.now }
{
    match ahead {
        [entry, ..] if same_message(message, &entry.msg) => Some(entry),
        _ => None,
    }
}

/// The replica processes entries of the log.
pub fn process_all<R: Replica>(replica: &mut R, entries: &[Entry]) -> Result<(), Refusal>
    requires { CanProcess (R.state replica.old) entries.now }
    ensures ok { (x y : NaiveClient) → Processes (R.state replica.old) entries.now x y → OnOk result (HasProcessed (R.state replica.old) (R.state replica.new) entries.now y) }
    ensures memory { OnErr result (result ≡ Err Refusal.OutOfMemory) }
{
    for entry in entries {
        process_one(replica, entry)?;
    }
    Ok(())
}

/// The replica processes an entry of the log.
pub fn process_one<R: Replica>(replica: &mut R, entry: &Entry) -> Result<(), Refusal>
    requires { CanProcess (R.state replica.old) (entry.now ∷ []) }
    ensures ok { (x y : NaiveClient) → Processes (R.state replica.old) (entry.now ∷ []) x y → OnOk result (HasProcessed (R.state replica.old) (R.state replica.new) (entry.now ∷ []) y) }
    ensures memory { OnErr result (result ≡ Err Refusal.OutOfMemory) }
{
    match replica.process(entry) {
        Ok(()) => Ok(()),
        Err(fault) => Err(Refusal::of_process(entry.msg.seq, fault)),
    }
}
