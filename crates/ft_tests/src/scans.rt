//! Scans of a list of elements, which no program makes.

use ft_base::scans::{insert_at_place, insertion_place, seen_count};
use ft_base::{Element, OutOfMemory, Perspective, Stamp, Stamps};
use std::alloc::Global;
use std::test::Fail;

// Who sees all that is put in here.
const READER: Perspective = Perspective { r: 3, c: 9 };

// An element that was put in under `seq`.
fn element(seq: u64, dels: Stamps) -> Element {
    let ins = Stamp::Acked { seq, conn: 1 };
    Element { ins, dels }
}

// A removal under 3.
fn removal(alloc: Global) -> Result<Stamps, OutOfMemory> {
    let mut dels = Stamps::new(alloc);
    dels.push(Stamp::Acked { seq: 3, conn: 2 })?;
    Ok(dels)
}

// Puts in three elements: the removed one goes behind the first, and the third before the removed one.
fn put_three(alloc: Global, items: &mut Vec<Element>) -> Result<(), OutOfMemory> {
    insert_at_place(items, 0, READER, element(1, Stamps::new(alloc)))?;
    insert_at_place(items, 1, READER, element(2, removal(alloc)?))?;
    insert_at_place(items, 1, READER, element(3, Stamps::new(alloc)))
}

// How many of three elements there are and are seen, and the places behind the second and the third that is seen.
fn places(alloc: Global) -> Result<[usize; 4], OutOfMemory> {
    let mut items = Vec::new(alloc);
    put_three(alloc, &mut items)?;
    Ok([
        items.len(),
        seen_count(&items, READER),
        insertion_place(&items, 2, READER),
        insertion_place(&items, 3, READER),
    ])
}

#[test]
fn an_insertion_goes_directly_after_its_place(rt: HostRuntime) -> Result<(), Fail> {
    assert_eq!(rt; places(rt.alloc())?, [3, 2, 2, 3]);
    Ok(())
}
