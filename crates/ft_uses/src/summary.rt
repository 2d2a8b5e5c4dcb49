//! A client that starts from a summary.

ghost use Rattle.ft_sumdoc.specs.Valid.{IsValidSummary};

use crate::faults::Fault;
use ft_msg::Replica;
use ft_sumdoc::{SumDoc, read_summary};
use std::alloc::Global;
use std::fmt::Write;

// A summary of version 1, which doesn't count who inserted what.
static FIRST_VERSION: &str =
    r#"{"cells":[],"cols":[],"conns":["A/1"],"count":2,"intervals":[],"min":2,"other":0,"rows":[],"seq":3,"skipped":0,"text":[[{"a":[2,1],"t":"hi"}]],"version":1}"#;

/// Writes how many characters there are of which nobody knows who inserted them, and how many in all, after a start from a
/// summary that doesn't say it.
pub fn blame<R: Replica + Drop>(alloc: Global, out: &mut String) -> Result<(), Fault> {
    let sum = read_summary(alloc, FIRST_VERSION.as_bytes())?;
    let blamed = blame_start::<R>(alloc, &sum, out);
    drop(sum);
    blamed
}

// The same of a client that starts from this summary.
fn blame_start<R: Replica + Drop>(
    alloc: Global,
    sum: &SumDoc,
    out: &mut String,
) -> Result<(), Fault>
    requires { IsValidSummary sum.now }
{
    let client = R::from_summary(alloc, sum)?;
    let blamed = write_origins(&client, out);
    drop(client);
    blamed
}

// Writes the line of a client.
fn write_origins<R: Replica>(client: &R, out: &mut String) -> Result<(), Fault> {
    let origins = client.attribution()?;
    let (unknown, all) = (origins.unknown(), origins.len());
    write!(
        out,
        "from a summary without authors: {unknown} of {all} unknown\n"
    )?;
    Ok(())
}
