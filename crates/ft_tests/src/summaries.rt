//! What no case and no text shows of summaries: authors that they leave out, and the refusal of bytes that are no UTF-8.

use ft_base::{OutOfMemory, Stamp, Stamps};
use ft_plain_lists::{Content, PlainList, shown_origins};
use ft_props::Props;
use ft_sumdoc::{SumCause, SumDoc, SumFault, read_summary};
use std::alloc::Global;
use std::test::Fail;

// A summary of version 1, in which no author counts.
static FIRST_VERSION: &str =
    r#"{"cells":[],"cols":[],"conns":["A/1"],"count":2,"intervals":[],"min":2,"other":0,"rows":[],"seq":3,"skipped":0,"text":[[{"a":[2,1],"t":"hi"}]],"version":1}"#;

// Who inserted the first segment of the summary's text.
fn first_author(sum: &SumDoc) -> Option<Stamp> {
    let by = sum.text.at(0)?.by;
    Some(Stamp::Acked {
        seq: by.seq,
        conn: by.conn,
    })
}

// The same of the summary that the text is.
fn read_author(alloc: Global, text: &str) -> Result<Option<Stamp>, SumFault> {
    let sum = read_summary(alloc, text.as_bytes())?;
    Ok(first_author(&sum))
}

// Puts an element that everybody sees into the list, by this author.
fn put_one(alloc: Global, list: &mut PlainList, by: Option<Stamp>) -> Result<(), OutOfMemory> {
    let ins = Stamp::Acked { seq: 0, conn: 0 };
    let dels = Stamps::new(alloc);
    list.push(Content::Marker(0), ins, &dels, by, &Props::new(alloc))
}

// Whether nobody knows who inserted an element by this author.
fn is_unknown(alloc: Global, by: Option<Stamp>) -> Result<bool, OutOfMemory> {
    let mut list = PlainList::new(alloc);
    put_one(alloc, &mut list, by)?;
    let origins = shown_origins(alloc, list.as_slice(), 0)?;
    Ok(origins.len() == 1 && origins.unknown() == 1)
}

// Whether the refusal is written so.
fn is_written(alloc: Global, fault: SumFault, text: &str) -> Result<bool, OutOfMemory> {
    let written = format!(in alloc; "{fault}")?;
    Ok(written.as_str() == text)
}

#[test]
fn authors_that_a_summary_leaves_out_are_unknown(rt: HostRuntime) -> Result<(), Fail> {
    let by = read_author(rt.alloc(), FIRST_VERSION)?;
    assert!(rt; is_unknown(rt.alloc(), by)?);
    Ok(())
}

#[test]
fn a_summary_that_is_no_text_is_refused(rt: HostRuntime) -> Result<(), Fail> {
    let fault = SumFault::Malformed(SumCause::NotUtf8);
    assert!(rt; is_written(rt.alloc(), fault, "Malformed NotUtf8")?);
    Ok(())
}
