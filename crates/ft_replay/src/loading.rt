//! The observer of a summary and the messages behind it.

ghost use Rattle.std.specs.Prelude.{◌≡◌, ◌≤◌, ℕ, List, true, IfOk, OnOk, length, string_bytes};
ghost use Rattle.ft_io.specs.Reader.{input_limit};
ghost use Rattle.ft_json.specs.Readers.{Reads};
ghost use Rattle.ft_op.specs.Document.{empty};
ghost use Rattle.ft_sumdoc.specs.Summary.{summary};
ghost use Rattle.ft_sumdoc.specs.Valid.{IsValidSummary};
ghost use Rattle.ft_replay.specs.Forms.{view_lines};
ghost use Rattle.ft_replay.specs.LineForm.{bytes_of};
ghost use Rattle.ft_replay.specs.Listening.{IsStep};
ghost use Rattle.ft_replay.specs.LoadRuns.{Loads, names_reserved};
ghost use Rattle.ft_replay.specs.Loading.{Loading, load_reading};
ghost use Rattle.ft_replay.specs.Observers.{Observes};

use crate::listener::{LINE_LIMIT, Listener, Told};
use crate::observer::Observer;
use ft_base::OutOfMemory;
use ft_io::INPUT_LIMIT;
use ft_laws_sessions::formed::read_summaries_name_few;
use ft_msg::Replica;
use ft_seqr::Refusal;
use ft_session::Counts;
use ft_sumdoc::{SumDoc, SumFault, read_summary};
use std::alloc::Global;

/// The observer of a summary and the messages behind it.
#[derive(Drop)]
pub enum LoadRun<R: Replica> {
    /// It waits for its summary.
    Waiting { alloc: Global },
    /// It takes messages.
    Observing { observer: Observer<R> },
}

impl<R: Replica + Drop> Listener for LoadRun<R> {
    ghost use Rattle.ft_replay.specs.LoadRuns.{Loads, names_reserved};
    ghost use Rattle.ft_replay.specs.Loading.{Loading};
    ghost use Rattle.ft_replay.specs.Forms.{load_form};

    ghost Made = { Loading };

    ghost form = { load_form };

    ghost holds = { λ a at. Loads R.state a at };

    ghost size = { λ a. names_reserved a };

    fn start(alloc: Global) -> Result<LoadRun<R>, OutOfMemory> {
        Ok(LoadRun::Waiting { alloc })
    }

    fn limit(&self) -> usize {
        match self {
            LoadRun::Waiting { .. } => INPUT_LIMIT,
            LoadRun::Observing { .. } => LINE_LIMIT,
        }
    }

    fn take(&mut self, line: &[u8]) -> Result<Told, OutOfMemory> {
        match self {
            LoadRun::Waiting { alloc } => begin(*alloc, line, self),
            LoadRun::Observing { observer } => observer.take(line),
        }
    }

    fn view_text(&self) -> Result<String, OutOfMemory> {
        match self {
            LoadRun::Waiting { alloc } => first_text::<R>(*alloc),
            LoadRun::Observing { observer } => observer.view_text(),
        }
    }

    fn counts(&self) -> Option<Counts> {
        match self {
            LoadRun::Waiting { .. } => Some(Counts {
                skipped: 0,
                other: 0,
            }),
            LoadRun::Observing { observer } => observer.counts(),
        }
    }
}

// The lines that an observer shows before the first message.
fn first_text<R: Replica + Drop>(alloc: Global) -> Result<String, OutOfMemory>
    ensures { IfOk result (λ text. string_bytes text ≡ bytes_of (view_lines empty)) }
{
    let observer = Observer::<R>::start(alloc)?;
    observer.view_text()
}

// Begins a run with the line of the summary, and returns what is told of that.
fn begin<R: Replica + Drop>(
    alloc: Global,
    line: &[u8],
    run: &mut LoadRun<R>,
) -> Result<Told, OutOfMemory>
    requires { length line.now ≤ input_limit }
    ensures step { IfOk result (λ told. IsStep (Loads R.state run.new) told (load_reading (summary line.now))) }
    ensures size { names_reserved run.old ≡ input_limit → names_reserved run.new ≤ input_limit }
{
    read_summaries_name_few();
    let read = read_summary(alloc, line);
    begin_read(alloc, &read, run)
}

// Begins a run with the summary that a line is, if it is one, and returns what is told of that.
fn begin_read<R: Replica + Drop>(
    alloc: Global,
    read: &Result<SumDoc, SumFault>,
    run: &mut LoadRun<R>,
) -> Result<Told, OutOfMemory>
    requires valid { IfOk read.now IsValidSummary }
    requires few { IfOk read.now (λ sum. length sum.conns ≤ input_limit) }
    ensures step { (line : List ℕ) → Reads SumFault.OutOfMemory (summary line) IsValidSummary read.now
        → IfOk result (λ told. IsStep (Loads R.state run.new) told (load_reading (summary line))) }
    ensures size { names_reserved run.old ≡ input_limit → names_reserved run.new ≤ input_limit }
{
    match read {
        Ok(sum) => observe(run, Observer::of_summary(alloc, sum), Told::Nothing),
        Err(SumFault::OutOfMemory) => Err(OutOfMemory),
        Err(fault) => {
            let told = Told::Refused(Refusal::Summary(*fault));
            observe(run, Observer::start(alloc), told)
        }
    }
}

// The run goes on with this observer, if it was made. Returns what is told of that.
fn observe<R: Replica + Drop>(
    run: &mut LoadRun<R>,
    made: Result<Observer<R>, OutOfMemory>,
    told: Told,
) -> Result<Told, OutOfMemory>
    ensures holds { (at : Loading) → at.begun ≡ true → IfOk made (λ observer. Observes observer.names (R.state observer.replica) at.seen)
        → OnOk result (Loads R.state run.new at) }
    ensures told { IfOk result (λ said. said ≡ told) }
    ensures size { (n : ℕ) → names_reserved run.old ≤ n → IfOk made (λ observer. length observer.names ≤ n) → names_reserved run.new ≤ n }
{
    let observer = made?;
    *run = LoadRun::Observing { observer };
    Ok(told)
}
