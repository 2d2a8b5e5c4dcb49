//! What is asked of a client and written.

ghost use Rattle.std.specs.Prelude.{◌≡◌, ◌≤◌, ◌-◌, ◌∷◌, [], IfOk, IsTrue, drop, length, map, take};
ghost use Rattle.serde_json.specs.Written.{compact_text};
ghost use Rattle.ft_attrib.specs.Runs.{origin_runs};
ghost use Rattle.ft_laws_agreement.specs.Sequencing.{Each};
ghost use Rattle.ft_msg.specs.Answers.{AnswersSummary};
ghost use Rattle.ft_msg.specs.WellFormed.{IsWellFormedDraft};
ghost use Rattle.ft_msg.specs.Written.{written_draft};
ghost use Rattle.ft_op.specs.WellFormed.{is_count};
ghost use Rattle.ft_seqr.specs.AnswerTexts.{written_authors, written_origin_run, written_overlap};
ghost use Rattle.ft_seqr.specs.World.{blame_client};
ghost use Rattle.ft_sumdoc.specs.Valid.{IsValidSummary};
ghost use Rattle.ft_sumdoc.specs.Written.{summary_text};
ghost use Rattle.ft_session.specs.Asked.{authors_client, overlap_client, queue_client, show_client, summarize_client};
ghost use Rattle.ft_session.specs.Effects.{ShowsNumbers};
ghost use Rattle.ft_session.specs.Worlds.{AnswersReading, MeetsSome};

use crate::members::Member;
use crate::outputs::{BoxedOut, Values, push_text};
use crate::service::Service;
use ft_attrib::{AttrRun, Attribution};
use ft_base::{Datum, OutOfMemory, Text};
use ft_msg::{Names, Replica, SummaryFault, write_draft};
use ft_seqr::{Refusal, author_texts, origin_run_text, overlap_text};
use ft_sumdoc::{IntervalRec, SumDoc, write_summary};
use std::alloc::Global;

/// The client's view.
pub(crate) fn show<R: Replica>(member: &Member<R>, service: &Service) -> Result<BoxedOut, Refusal>
    requires { MeetsSome member.now service.now }
    ensures answers { AnswersReading show_client member.now service.now result }
    ensures numbers { IfOk result (ShowsNumbers member.now) }
{
    let view = member.replica.view()?;
    BoxedOut::of_view(service.alloc, member.name.copy(), view)
}

/// The client's unsent messages, the oldest first.
pub(crate) fn queue<R: Replica>(member: &Member<R>, service: &Service) -> Result<BoxedOut, Refusal>
    requires { MeetsSome member.now service.now }
    ensures { AnswersReading queue_client member.now service.now result }
{
    BoxedOut::of_texts(service.alloc, queue_texts(service.alloc, &member.replica))
}

/// The client's summary.
pub(crate) fn summarize<R: Replica>(
    member: &Member<R>,
    service: &Service,
) -> Result<BoxedOut, Refusal>
    requires { MeetsSome member.now service.now }
    ensures { AnswersReading summarize_client member.now service.now result }
{
    let summary = summary_of(member, service)?;
    BoxedOut::of_texts(service.alloc, summary_texts(service.alloc, &summary))
}

/// The summary of the replica, over the names of all connections.
pub(crate) fn summary_of<R: Replica>(
    member: &Member<R>,
    service: &Service,
) -> Result<SumDoc, SummaryFault>
    requires { MeetsSome member.now service.now }
    ensures { AnswersSummary service.now.names member.now.replica result }
{
    member.replica.summary(&service.names)
}

/// The client's intervals of a label that meet a range.
pub(crate) fn overlap<R: Replica>(
    member: &Member<R>,
    service: &Service,
    label: &Text,
    start: u64,
    end: u64,
) -> Result<BoxedOut, Refusal>
    requires range { start ≤ end }
    requires meets { MeetsSome member.now service.now }
    ensures { AnswersReading (overlap_client label.now start end) member.now service.now result }
{
    let found = member.replica.overlapping(label, start, end)?;
    let texts = overlap_texts(service.alloc, found.as_slice());
    BoxedOut::of_texts(service.alloc, texts)
}

/// Who inserted the visible elements of a range.
pub(crate) fn blame<R: Replica>(
    member: &Member<R>,
    service: &Service,
    start: u64,
    end: u64,
) -> Result<BoxedOut, Refusal>
    requires range { start ≤ end }
    requires meets { MeetsSome member.now service.now }
    ensures { AnswersReading (λ w c. blame_client w c.client start end) member.now service.now result }
{
    let origins = member.replica.attribution()?;
    if origins.len() < end {
        return Err(Refusal::OutOfRange {
            length: origins.len(),
        });
    }
    let texts = range_texts(service, &origins, start, end);
    BoxedOut::of_texts(service.alloc, texts)
}

/// How many visible elements each connection inserted.
pub(crate) fn authors<R: Replica>(
    member: &Member<R>,
    service: &Service,
) -> Result<BoxedOut, Refusal>
    requires { MeetsSome member.now service.now }
    ensures { AnswersReading authors_client member.now service.now result }
{
    let origins = member.replica.attribution()?;
    BoxedOut::of_texts(service.alloc, values_by_author(service, &origins))
}

// The text of a summary.
fn summary_texts(alloc: Global, summary: &SumDoc) -> Result<Values, OutOfMemory>
    requires valid { IsValidSummary summary.now }
    requires conns { IsTrue (is_count (length summary.now.conns)) }
    ensures { IfOk result (λ values. values ≡ summary_text summary.now ∷ []) }
{
    let mut values = Values::new(alloc);
    push_text(&mut values, write_summary(alloc, summary))?;
    Ok(values)
}

// The texts of the runs in a range of origins.
fn range_texts(
    service: &Service,
    origins: &Attribution,
    start: u64,
    end: u64,
) -> Result<Values, OutOfMemory>
    ensures { IfOk result (λ values. values ≡ map compact_text (map (written_origin_run service.now.names) (origin_runs start (take (end - start) (drop start origins.now))))) }
{
    let runs = origins.runs(start, end)?;
    run_texts(service.alloc, &service.names, runs.as_slice())
}

// The texts of how many elements each connection inserted.
fn values_by_author(service: &Service, origins: &Attribution) -> Result<Values, OutOfMemory>
    ensures { IfOk result (λ values. values ≡ map compact_text (written_authors service.now.names origins.now)) }
{
    let texts = author_texts(service.alloc, &service.names, origins)?;
    Ok(Values::of(texts))
}

// The texts of the unsent messages, the oldest first.
fn queue_texts<R: Replica>(alloc: Global, replica: &R) -> Result<Values, OutOfMemory>
    requires { Each IsWellFormedDraft (R.state replica.now).client.queue }
    ensures { IfOk result (λ values. values ≡ map compact_text (map written_draft (R.state replica.now).client.queue)) }
{
    let mut values = Values::new(alloc);
    for i in 0..replica.queued() {
        let Some(draft) = replica.queue_at(i) else {
            break;
        };
        push_text(&mut values, write_draft(alloc, draft))?;
    }
    Ok(values)
}

// The texts of intervals that meet a range.
fn overlap_texts(alloc: Global, intervals: &[IntervalRec]) -> Result<Values, OutOfMemory>
    ensures { IfOk result (λ values. values ≡ map compact_text (map written_overlap intervals.now)) }
{
    let mut values = Values::new(alloc);
    for interval in intervals {
        push_text(&mut values, overlap_text(alloc, interval))?;
    }
    Ok(values)
}

// The texts of runs of origins.
fn run_texts(alloc: Global, names: &Names, runs: &[AttrRun]) -> Result<Values, OutOfMemory>
    ensures { IfOk result (λ values. values ≡ map compact_text (map (written_origin_run names.now) runs.now)) }
{
    let mut values = Values::new(alloc);
    for run in runs {
        push_text(&mut values, origin_run_text(alloc, names, run))?;
    }
    Ok(values)
}
