//! The lists that a summary gives.

ghost use Rattle.std.specs.Prelude.{◌≡◌, ◌+◌, ◌++◌, [], None, Some, IfOk, OnOk, length, map, replicate};
ghost use Rattle.ft_props.specs.Element.{GridUnit, new_elements};
ghost use Rattle.ft_marks.specs.Marks.{stamp_of};
ghost use Rattle.ft_msg.specs.Summary.{list_of, run_items, segment_bodies, segment_items};
ghost use Rattle.ft_plain_lists.specs.Contents.{content_of};

use ft_base::OutOfMemory;
use ft_marks::{stamp_of, stamps_of};
use ft_plain_lists::{Content, PlainList, characters, units};
use ft_props::Props;
use ft_sumdoc::{RunRec, Seg, SegRec};
use std::alloc::Global;

/// The list of the elements of segments.
///
/// Returns `OutOfMemory` where there is no room for them or they would be more than 2^53 - 1.
pub fn text_list(alloc: Global, segs: &[SegRec]) -> Result<PlainList, OutOfMemory>
    ensures { IfOk result (λ list. list ≡ list_of (segment_items 0 segs.now)) }
{
    let mut list = PlainList::new(alloc);
    for seg in segs {
        add_segment(&mut list, seg)?;
    }
    Ok(list)
}

// Adds the elements of the segment.
//
// Returns `OutOfMemory` where there is no room for them or they would be more than 2^53 - 1, and then some may be
// there.
fn add_segment(list: &mut PlainList, seg: &SegRec) -> Result<(), OutOfMemory>
    ensures items { OnOk result (list.new.items ≡ list.old.items ++ new_elements list.old.made (stamp_of seg.now.ins) (map stamp_of seg.now.dels)
        (Some (stamp_of seg.now.by)) seg.now.props (segment_bodies seg.now.body)) }
    ensures made { OnOk result (list.new.made ≡ list.old.made + length (segment_bodies seg.now.body)) }
{
    let alloc = list.alloc();
    let contents = segment_bodies(alloc, &seg.body)?;
    let dels = stamps_of(alloc, seg.dels.as_slice())?;
    let by = Some(stamp_of(seg.by));
    list.append(
        stamp_of(seg.ins),
        &dels,
        by,
        &seg.props,
        contents.as_slice(),
    )
}

// The contents of the elements of a segment.
fn segment_bodies(alloc: Global, seg: &Seg) -> Result<Vec<Content>, OutOfMemory>
    ensures { IfOk result (λ v. map content_of v.items ≡ segment_bodies seg.now) }
{
    match seg {
        Seg::Chars { text } => characters(alloc, text.as_str()),
        Seg::Marker { ref_type } => Ok(vec![in alloc; Content::Marker(*ref_type)]?),
    }
}

/// The list of the units of runs.
///
/// Returns `OutOfMemory` where there is no room for them or they would be more than 2^53 - 1.
pub fn unit_list(alloc: Global, runs: &[RunRec]) -> Result<PlainList, OutOfMemory>
    ensures { IfOk result (λ list. list ≡ list_of (run_items 0 runs.now)) }
{
    let mut list = PlainList::new(alloc);
    for run in runs {
        add_run(&mut list, run)?;
    }
    Ok(list)
}

// Adds the units of the run.
//
// Returns `OutOfMemory` where there is no room for them or they would be more than 2^53 - 1, and then some may be
// there.
fn add_run(list: &mut PlainList, run: &RunRec) -> Result<(), OutOfMemory>
    ensures items { OnOk result (list.new.items ≡ list.old.items ++ new_elements list.old.made (stamp_of run.now.ins) (map stamp_of run.now.dels) None []
        (replicate run.now.count GridUnit)) }
    ensures made { OnOk result (list.new.made ≡ list.old.made + run.now.count) }
{
    let alloc = list.alloc();
    let contents = units(alloc, run.count)?;
    let dels = stamps_of(alloc, run.dels.as_slice())?;
    let props = Props::new(alloc);
    list.append(stamp_of(run.ins), &dels, None, &props, contents.as_slice())
}
