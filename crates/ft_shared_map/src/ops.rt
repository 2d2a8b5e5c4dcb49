//! Operations on a map, and its entries.

ghost use Rattle.std.specs.Prelude.{◌≡◌, Some, IfOk, OnOk, OnErr, option_copied};
ghost use Rattle.ft_shared_map.specs.Maps.{key_cmp, put, put_rising, written};

use ft_base::{Datum, OutOfMemory, Text};
use ft_json::ValText;
use ft_props::Props;

/// An operation on a map.
#[derive(Drop)]
pub enum MapOp {
    /// The key gets this value.
    Set { key: Text, value: ValText },
    /// The key and its value are taken out, if they are there.
    Delete { key: Text },
    /// All are taken out.
    Clear,
}

/// A key of a map and its value.
#[derive(Drop)]
pub struct MapPair {
    /// The key.
    pub key: Text,
    /// The text of its value.
    pub value: ValText,
}

impl MapOp {
    /// An equal operation.
    pub fn copy(&self) -> Result<MapOp, OutOfMemory>
        ensures { IfOk result (λ copy. copy ≡ self.now) }
    {
        match self {
            MapOp::Set { key, value } => Ok(MapOp::Set {
                key: key.copy()?,
                value: value.copy()?,
            }),
            MapOp::Delete { key } => Ok(MapOp::Delete { key: key.copy()? }),
            MapOp::Clear => Ok(MapOp::Clear),
        }
    }
}

/// The value that the operation sets: None exactly where it sets none.
pub(crate) fn written(op: &MapOp) -> Option<&ValText>
    ensures { option_copied result ≡ written (Some op.now) }
{
    match op {
        MapOp::Set { value, .. } => Some(value),
        MapOp::Delete { .. } | MapOp::Clear => None,
    }
}

/// The map after the operation.
///
/// Returns `OutOfMemory` where there is no room for it, and then the map is as it was.
pub(crate) fn put(map: &mut Props, op: &MapOp) -> Result<(), OutOfMemory>
    ensures ok { OnOk result (map.new ≡ put map.old op.now) }
    ensures err { OnErr result (map.new ≡ map.old) }
{
    match op {
        MapOp::Set { key, value } => set(map, key, value),
        MapOp::Delete { key } => {
            map.remove(key.as_str());
            Ok(())
        }
        MapOp::Clear => {
            *map = Props::new(map.allocator());
            Ok(())
        }
    }
}

/// The map with this value of the key.
///
/// Returns `OutOfMemory` where there is no room for it, and then the map is as it was.
pub(crate) fn set(map: &mut Props, key: &Text, value: &ValText) -> Result<(), OutOfMemory>
    ensures ok { OnOk result (map.new ≡ put_rising key_cmp (key.now, value.now) map.old) }
    ensures err { OnErr result (map.new ≡ map.old) }
{
    map.put(key.copy()?, value.copy()?)
}
