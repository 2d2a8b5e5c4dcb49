//! What no case of the command line shows of a list of origins: what is read of it at a place, under a counter that
//! costs nothing, and copies of its parts.

ghost use Rattle.std.specs.Prelude.{◌≡◌, ◌<◌};

use crate::copies::is_copied;
use ft_attrib::{AttrRun, Attribution, Origin, Total};
use ft_base::{OutOfMemory, Steps};
use std::alloc::Global;
use std::marker::Brand;
use std::sync::ledger::{Blank, Ledger};
use std::test::Fail;

const FIRST: Origin = Origin::Known { seq: 1, conn: 7 };

// Two characters of one origin and one of another.
fn three_characters(alloc: Global) -> Result<Attribution, OutOfMemory> {
    let mut list = Attribution::new(alloc);
    list.push(2, FIRST)?;
    list.push(1, Origin::Unknown)?;
    Ok(list)
}

// The origins of the first and the last character, and of the one that isn't there.
fn read<L: Ledger>(list: &Attribution, blank: Blank) -> [Option<Origin>; 3]
    requires name { blank.name ≡ L.name }
    requires parts { blank.parts ≡ L.parts }
    requires some { 0 < blank.parts }
{
    let mut steps = Steps::<L>::new(blank);
    let first = list.at(0, &mut steps);
    let last = list.at(2, &mut steps);
    [first, last, list.at(3, &mut steps)]
}

// Whether these are read of three characters.
fn are_read(alloc: Global) -> Result<bool, OutOfMemory> {
    let list = three_characters(alloc)?;
    let origins = read::<Brand>(&list, Blank::new(1));
    Ok(origins == [Some(FIRST), Some(Origin::Unknown), None])
}

#[test]
fn a_list_of_origins_is_read(rt: HostRuntime) -> Result<(), Fail> {
    assert!(rt; are_read(rt.alloc())?);
    assert!(rt; std::mem::size_of::<Steps<Brand>>() == 0);
    Ok(())
}

const RUN: AttrRun = AttrRun {
    start: 3,
    end: 5,
    who: FIRST,
};

const TOTAL: Total = Total { conn: 7, count: 5 };

#[test]
fn runs_totals_and_origins_are_copied(rt: HostRuntime) -> Result<(), Fail> {
    assert!(rt; is_copied(&RUN)?);
    assert!(rt; is_copied(&TOTAL)?);
    assert!(rt; is_copied(&FIRST)?);
    Ok(())
}
