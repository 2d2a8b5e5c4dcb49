//! A client's map.

ghost use Rattle.std.specs.Prelude.{◌≡◌, ◌+◌, ◌<◌, ◌^◌, [], ◌∷◌, ◌++◌, IfOk, OnOk, OnErr, chars, length, option_copied, slice_get};
ghost use Rattle.ft_props.specs.Keys.{KeysRise};
ghost use Rattle.ft_shared_map.specs.Maps.{acknowledged, map_of, pair_of, pairs_of, put, shown_map, value_of};

use crate::marks::KeyMarks;
use crate::ops::{MapOp, MapPair, put, set, written};
use ft_base::moved::push_reserved;
use ft_base::{Datum, OutOfMemory, Text};
use ft_json::ValText;
use ft_props::Props;
use std::alloc::Global;
use std::collections::VecDeque;
use std::marker::Model;

/// A map of keys and values that several clients change. Contracts see it as the map of what was sequenced, and the
/// client's own operations on top of it that weren't yet, in order.
///
/// Of n keys and m pending operations, `get` takes about log(n) + log(m) steps: which pending operation counts is kept
/// by key, with the place of the last clear.
#[derive(Drop)]
pub struct SharedMap {
    acked: Props,
    pending: VecDeque<MapOp>,
    /// The number of the oldest pending operation.
    first: u64,
    marks: KeyMarks,
}

impl Model for SharedMap {
    ghost use Rattle.std.specs.Prelude.{◌+◌, ◌<◌, ◌^◌, length};
    ghost use Rattle.ft_props.specs.Keys.{KeysRise};
    ghost use Rattle.ft_shared_map.specs.Maps.{MapState};
    ghost use Rattle.ft_shared_map.specs.Marks.{AreMarksOf};

    ghost Value = { MapState };

    ghost view = { λ a. record { acked = a.acked; pending = a.pending.items } };

    ghost invariant = { λ a. AreMarksOf a.first a.pending.items a.marks × (a.first + length a.pending.items < 2 ^ 64) × KeysRise a.acked };
}

impl SharedMap {
    /// An empty map, with nothing pending. It takes no memory.
    pub fn new(alloc: Global) -> SharedMap
        ensures { result ≡ record { acked = []; pending = [] } }
    {
        SharedMap::of(alloc, Props::new(alloc))
    }

    /// The map of these pairs, with nothing pending.
    pub fn load(alloc: Global, pairs: &Vec<MapPair>) -> Result<SharedMap, OutOfMemory>
        requires { KeysRise (map_of pairs.now.items) }
        ensures { IfOk result (λ map. map ≡ record { acked = map_of pairs.now.items; pending = [] }) }
    {
        Ok(SharedMap::of(alloc, props_of(alloc, pairs.as_slice())?))
    }

    // This was sequenced, and nothing is pending.
    fn of(alloc: Global, acked: Props) -> SharedMap
        ensures { result ≡ record { acked = acked; pending = [] } }
    {
        SharedMap {
            acked,
            pending: VecDeque::new(alloc),
            first: 0,
            marks: KeyMarks::new(alloc),
        }
    }

    /// A map with what was sequenced of this one, and nothing pending.
    pub fn acked_copy(&self) -> Result<SharedMap, OutOfMemory>
        ensures { IfOk result (λ map. map ≡ record { acked = self.now.acked; pending = [] }) }
    {
        Ok(SharedMap::of(self.acked.allocator(), self.acked.copy()?))
    }

    /// What was sequenced, by rising keys.
    pub fn acked(&self) -> &[(Text, ValText)]
        ensures { result.now ≡ self.now.acked }
    {
        self.acked.as_slice()
    }

    /// How many operations are pending.
    pub fn pending(&self) -> u64
        ensures { result ≡ length self.now.pending }
    {
        self.pending.len() as u64
    }

    /// The pending operation at place `i`, counted from 0: None exactly where `i` isn't below `pending`.
    pub fn pending_at(&self, i: u64) -> Option<&MapOp>
        ensures { option_copied result ≡ slice_get self.now.pending i }
    {
        self.pending.get(i as usize)
    }

    /// All pending operations in order.
    pub fn operations(&self) -> &VecDeque<MapOp>
        ensures { result.now.items ≡ self.now.pending }
    {
        &self.pending
    }

    /// An operation of the client's own, which becomes pending behind the others.
    ///
    /// Returns `OutOfMemory` where there is no room for it, and then nothing changed.
    pub fn edit(&mut self, op: &MapOp) -> Result<(), OutOfMemory>
        ensures ok { OnOk result (self.new ≡ record self.old { pending = self.old.pending ++ op.now ∷ [] }) }
        ensures err { OnErr result (self.new ≡ self.old) }
    {
        let number = next_number(self.first, self.pending.len())?;
        self.pending.reserve(1)?;
        let own = op.copy()?;
        let noted = self.marks.note(number, op);
        push_reserved(noted, &mut self.pending, own)?;
        Ok(())
    }

    /// An operation of another client, which has become sequenced.
    ///
    /// Returns `OutOfMemory` where there is no room for it, and then nothing changed.
    pub fn apply(&mut self, op: &MapOp) -> Result<(), OutOfMemory>
        ensures ok { OnOk result (self.new ≡ record self.old { acked = put self.old.acked op.now }) }
        ensures err { OnErr result (self.new ≡ self.old) }
    {
        put(&mut self.acked, op)
    }

    /// The oldest pending operation has become sequenced.
    ///
    /// Returns `OutOfMemory` where there is no room for it, and then nothing changed.
    pub fn ack(&mut self) -> Result<(), OutOfMemory>
        requires { 0 < length self.old.pending }
        ensures ok { OnOk result (self.new ≡ acknowledged self.old.acked self.old.pending) }
        ensures err { OnErr result (self.new ≡ self.old) }
    {
        let Some(oldest) = self.pending.front() else {
            unreachable!()
        };
        put(&mut self.acked, oldest)?;
        self.marks.forget(self.first, oldest);
        self.first += 1;
        let _ = self.pending.pop_front();
        Ok(())
    }

    /// The value of the key in what the client shows: None exactly where that hasn't the key.
    pub fn get(&self, key: &str) -> Option<&ValText>
        ensures { option_copied result ≡ value_of (chars key.now) (shown_map self.now) }
    {
        match self.marks.last_of(key) {
            Some(number) => written(&self.pending[(number - self.first) as usize]),
            None => match self.marks.cleared() {
                None => self.acked.get(key),
                Some(_) => None,
            },
        }
    }

    /// What the client shows, by rising keys.
    pub fn pairs(&self) -> Result<Vec<MapPair>, OutOfMemory>
        ensures shown { IfOk result (λ pairs. pairs.items ≡ pairs_of (shown_map self.now)) }
        ensures rising { IfOk result (λ pairs. KeysRise (map_of pairs.items)) }
    {
        let shown = self.shown()?;
        pairs_of(&shown)
    }

    // The same, as a map.
    fn shown(&self) -> Result<Props, OutOfMemory>
        ensures { IfOk result (λ map. map ≡ shown_map self.now) }
    {
        let mut map = self.acked.copy()?;
        for op in &self.pending {
            put(&mut map, op)?;
        }
        Ok(map)
    }
}

// The number behind so many from the first.
//
// Returns `OutOfMemory` where the next one would pass 2^64 - 1.
fn next_number(first: u64, count: usize) -> Result<u64, OutOfMemory>
    ensures number { IfOk result (λ number. number ≡ first + count) }
    ensures low { IfOk result (λ number. number + 1 < 2 ^ 64) }
{
    match first.checked_add(count as u64) {
        Some(number) if number < u64::MAX => Ok(number),
        _ => Err(OutOfMemory),
    }
}

// The map of these pairs.
//
// Returns `OutOfMemory` where there is no room for it.
fn props_of(alloc: Global, pairs: &[MapPair]) -> Result<Props, OutOfMemory>
    requires { KeysRise (map_of pairs.now) }
    ensures { IfOk result (λ map. map ≡ map_of pairs.now) }
{
    let mut map = Props::new(alloc);
    for pair in pairs {
        set(&mut map, &pair.key, &pair.value)?;
    }
    Ok(map)
}

// The pairs of this map.
//
// Returns `OutOfMemory` where there is no room for them.
fn pairs_of(map: &Props) -> Result<Vec<MapPair>, OutOfMemory>
    ensures shown { IfOk result (λ pairs. pairs.items ≡ pairs_of map.now) }
    ensures rising { IfOk result (λ pairs. KeysRise (map_of pairs.items)) }
{
    let mut pairs = Vec::new(map.allocator());
    for (key, value) in map.as_slice() {
        pairs.push(pair_of(key, value)?)?;
    }
    Ok(pairs)
}

// A pair of this key and this value.
//
// Returns `OutOfMemory` where there is no room for it.
fn pair_of(key: &Text, value: &ValText) -> Result<MapPair, OutOfMemory>
    ensures { IfOk result (λ pair. pair ≡ pair_of (key.now, value.now)) }
{
    let key = key.copy()?;
    let value = value.copy()?;
    Ok(MapPair { key, value })
}
