//! Lists of stamps of a leaf.

ghost use Rattle.std.specs.Prelude.{◌≡◌, ◌≤◌, ◌++◌, ◌∷◌, [], IfOk, OnOk, filter, length, map, not};
ghost use Rattle.std.specs.List.{list_any, prefix_len};
ghost use Rattle.ft_base.specs.Scan.{put_past};
ghost use Rattle.ft_base.specs.Visibility.{is_acked, is_of_stage};
ghost use Rattle.ft_props.specs.Steps.{acked_stamp};
ghost use Rattle.ft_props.specs.Compaction.{is_insertion_at_or_below};

use ft_base::{OutOfMemory, Stamp, Stamps};
use std::alloc::Global;

/// The removals with one more, before the pending one.
pub(crate) fn with_removal(alloc: Global, dels: &[Stamp], t: Stamp) -> Result<Stamps, OutOfMemory>
    ensures { IfOk result (λ v. v ≡ put_past is_acked (t ∷ []) dels.now) }
{
    let n = sequenced_count(dels);
    let mut stamps = Stamps::new(alloc);
    push_all(&mut stamps, &dels[..n])?;
    stamps.push(t)?;
    push_all(&mut stamps, &dels[n..])?;
    Ok(stamps)
}

/// The stamp after a stage was acknowledged under number `seq` of connection `conn`.
pub(crate) fn acked(t: Stamp, stage: u64, seq: u64, conn: u32) -> Stamp
    ensures { result ≡ acked_stamp stage seq conn t }
{
    if is_of_stage(&t, stage) {
        Stamp::Acked { seq, conn }
    } else {
        t
    }
}

/// The stamps after a stage was acknowledged under number `seq` of connection `conn`.
pub(crate) fn acked_all(
    alloc: Global,
    stamps: &[Stamp],
    stage: u64,
    seq: u64,
    conn: u32,
) -> Result<Stamps, OutOfMemory>
    ensures { IfOk result (λ v. v ≡ map (acked_stamp stage seq conn) stamps.now) }
{
    let mut sequenced = Stamps::new(alloc);
    for t in stamps {
        sequenced.push(acked(*t, stage, seq, conn))?;
    }
    Ok(sequenced)
}

// Adds the stamps at the end.
fn push_all(stamps: &mut Stamps, more: &[Stamp]) -> Result<(), OutOfMemory>
    ensures { OnOk result (stamps.new ≡ stamps.old ++ more.now) }
{
    for stamp in more {
        stamps.push(*stamp)?;
    }
    Ok(())
}

/// The stamps but those of a stage.
pub(crate) fn without_stage(
    alloc: Global,
    stamps: &[Stamp],
    stage: u64,
) -> Result<Stamps, OutOfMemory>
    ensures { IfOk result (λ v. v ≡ filter (λ t. not (is_of_stage stage t)) stamps.now) }
{
    let mut others = Stamps::new(alloc);
    for t in stamps {
        if !is_of_stage(t, stage) {
            others.push(*t)?;
        }
    }
    Ok(others)
}

/// The stamps that are sequenced.
pub(crate) fn sequenced_only(alloc: Global, stamps: &[Stamp]) -> Result<Stamps, OutOfMemory>
    ensures { IfOk result (λ v. v ≡ filter is_acked stamps.now) }
{
    let mut sequenced = Stamps::new(alloc);
    for t in stamps {
        if matches!(t, Stamp::Acked { .. }) {
            sequenced.push(*t)?;
        }
    }
    Ok(sequenced)
}

// How many sequenced stamps stand at the front.
fn sequenced_count(stamps: &[Stamp]) -> usize
    ensures count { result ≡ prefix_len is_acked stamps.now }
    ensures inside { result ≤ length stamps.now }
{
    for (i, stamp) in stamps.iter().enumerate() {
        if matches!(stamp, Stamp::Local { .. }) {
            return i;
        }
    }
    stamps.len()
}

/// Whether one of the stamps is sequenced.
pub fn has_sequenced(stamps: &[Stamp]) -> bool
    ensures { result ≡ list_any is_acked stamps.now }
{
    stamps
        .iter()
        .any(|stamp| matches!(stamp, Stamp::Acked { .. }))
}

/// Whether one of the stamps is pending, of that stage.
pub fn has_stage(stamps: &[Stamp], stage: u64) -> bool
    ensures { result ≡ list_any (is_of_stage stage) stamps.now }
{
    stamps.iter().any(|stamp| is_of_stage(stamp, stage))
}

/// Whether the stamp is pending, of that stage.
pub fn is_of_stage(stamp: &Stamp, stage: u64) -> bool
    ensures { result ≡ is_of_stage stage stamp.now }
{
    match stamp {
        Stamp::Acked { .. } => false,
        Stamp::Local { stage: own } => *own == stage,
    }
}

/// Whether the stamp is sequenced with a number up to the floor.
pub(crate) fn is_at_or_below(stamp: &Stamp, floor: u64) -> bool
    ensures { result ≡ is_insertion_at_or_below floor stamp.now }
{
    match stamp {
        Stamp::Acked { seq, .. } => *seq <= floor,
        Stamp::Local { .. } => false,
    }
}
