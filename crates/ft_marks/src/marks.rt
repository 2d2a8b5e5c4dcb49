//! Stamps as the marks of a summary, and marks as stamps; and the tests by which a summary joins elements.

ghost use Rattle.std.specs.Prelude.{◌≡◌, IfOk, map};
ghost use Rattle.ft_marks.specs.Marks.{author_mark, insertion_mark, mark_of, marked_stamps, stamp_of};
ghost use Rattle.ft_props.specs.Compaction.{has_collectable_removal};
ghost use Rattle.ft_sumdoc.specs.Stamps.{same_mark};
ghost use Rattle.ft_sumdoc.specs.WellFormed.{same_props, same_stamps};

use ft_base::{Datum, Element, OutOfMemory, Stamp, Stamps};
use ft_props::Props;
use ft_sumdoc::{Mark, Marks};
use std::alloc::Global;

// The mark of what everybody sees, or of nobody.
const UNIVERSAL: Mark = Mark { seq: 0, conn: 0 };

/// A sequenced stamp as a mark.
pub fn mark_of(stamp: &Stamp) -> Mark
    ensures { result ≡ mark_of stamp.now }
{
    match stamp {
        Stamp::Acked { seq, conn } => Mark {
            seq: *seq,
            conn: *conn,
        },
        Stamp::Local { .. } => UNIVERSAL,
    }
}

/// The author of an element, (0, 0) where it isn't known.
pub fn author_of(by: Option<Stamp>) -> Mark
    ensures { result ≡ author_mark by }
{
    match by {
        Some(stamp) => mark_of(&stamp),
        None => UNIVERSAL,
    }
}

/// The stamps as marks.
pub fn marks_of(alloc: Global, stamps: &[Stamp]) -> Result<Marks, OutOfMemory>
    ensures { IfOk result (λ marks. marks ≡ map mark_of stamps.now) }
{
    let mut marks = Marks::new(alloc);
    for stamp in stamps {
        marks.push(mark_of(stamp))?;
    }
    Ok(marks)
}

/// The insertion as a mark, as a summary with this minimum has it: that which everybody sees, where it is at or below the
/// minimum.
pub fn insertion_of(ins: &Stamp, min: u64) -> Mark
    ensures { result ≡ insertion_mark min ins.now }
{
    match ins {
        Stamp::Acked { seq, .. } if *seq <= min => UNIVERSAL,
        Stamp::Acked { .. } | Stamp::Local { .. } => mark_of(ins),
    }
}

/// Whether the first removal is at or below the minimum.
pub fn is_collectable(dels: &[Stamp], min: u64) -> bool
    ensures { result ≡ has_collectable_removal min dels.now }
{
    match dels.first() {
        Some(Stamp::Acked { seq, .. }) => *seq <= min,
        Some(Stamp::Local { .. }) | None => false,
    }
}

/// Whether the properties are equal.
pub fn same_props(a: &Props, b: &Props) -> bool
    ensures { result ≡ same_props a.now b.now }
{
    a.same(b)
}

/// Whether the marks are equal.
pub fn same_mark(a: Mark, b: Mark) -> bool
    ensures { result ≡ same_mark a b }
{
    a.seq == b.seq && a.conn == b.conn
}

/// Whether the insertions are equal, and the removals too.
pub fn same_stamps(ins: Mark, dels: &Marks, other_ins: Mark, other_dels: &Marks) -> bool
    ensures { result ≡ same_stamps ins dels.now other_ins other_dels.now }
{
    same_mark(ins, other_ins) && dels.same(other_dels)
}

/// A mark as a stamp.
pub fn stamp_of(mark: Mark) -> Stamp
    ensures { result ≡ stamp_of mark }
{
    Stamp::Acked {
        seq: mark.seq,
        conn: mark.conn,
    }
}

/// The marks as stamps.
pub fn stamps_of(alloc: Global, marks: &[Mark]) -> Result<Stamps, OutOfMemory>
    ensures { IfOk result (λ stamps. stamps ≡ map stamp_of marks.now) }
{
    let mut stamps = Stamps::new(alloc);
    for mark in marks {
        stamps.push(stamp_of(*mark))?;
    }
    Ok(stamps)
}

/// The stamps of an element with these marks.
pub fn element_of(alloc: Global, ins: Mark, dels: &Marks) -> Result<Element, OutOfMemory>
    ensures { IfOk result (λ e. e ≡ marked_stamps ins dels.now) }
{
    let dels = stamps_of(alloc, dels.as_slice())?;
    Ok(Element {
        ins: stamp_of(ins),
        dels,
    })
}
