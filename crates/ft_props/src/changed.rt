//! What sets of properties and changes make of properties.

ghost use Rattle.std.specs.Prelude.{◌≡◌, Some, IfOk, OnOk};
ghost use Rattle.std.specs.Fmt.{signed_decimal};
ghost use Rattle.ft_props.specs.Properties.{adj, adjust, apply, change, number_or_zero, set_key, value_of};

use crate::numbers::adjusted_value;
use crate::properties::{AdjSet, Adjust, Changes, PropSet, Props};
use ft_base::moved::after;
use ft_base::{Datum, OutOfMemory, Text};
use ft_json::ValText;

// A function here that changes properties leaves them half changed after `OutOfMemory`: its caller
// works on a copy.

// Sets the value of the key, or takes the key away where there is none.
fn set_key(props: &mut Props, key: &Text, value: &Option<ValText>) -> Result<(), OutOfMemory>
    ensures { OnOk result (props.new ≡ set_key key.now value.now props.old) }
{
    match value {
        Some(value) => props.put(key.copy()?, value.copy()?)?,
        None => props.remove(key.as_str()),
    }
    Ok(())
}

// Adjusts the value of the key.
fn adjust_key(props: &mut Props, key: &Text, by: &Adjust) -> Result<(), OutOfMemory>
    ensures { let before = number_or_zero (value_of key.now props.old) in
        OnOk result (props.new ≡ set_key key.now (Some (signed_decimal (adj before by.now))) props.old) }
{
    let value = adjusted_value(props.allocator(), props.get(key.as_str()), by)?;
    props.put(key.copy()?, value)
}

// Applies each key of the set in turn.
fn apply_all(props: &mut Props, set: &PropSet) -> Result<(), OutOfMemory>
    ensures { OnOk result (props.new ≡ apply props.old set.now) }
{
    for (key, value) in set.as_slice() {
        set_key(props, key, value)?;
    }
    Ok(())
}

// Makes each adjustment in turn.
fn adjust_all(props: &mut Props, adjustments: &AdjSet) -> Result<(), OutOfMemory>
    ensures { OnOk result (props.new ≡ adjust props.old adjustments.now) }
{
    for (key, by) in adjustments.as_slice() {
        adjust_key(props, key, by)?;
    }
    Ok(())
}

/// Makes the changes: first each key is set, and then each adjustment is made, of 0 where the key
/// has no whole number.
pub fn make_changes(props: &mut Props, changes: &Changes) -> Result<(), OutOfMemory>
    ensures { OnOk result (props.new ≡ change props.old changes.now) }
{
    apply_all(props, &changes.props)?;
    adjust_all(props, &changes.adjust)
}

impl Props {
    /// The properties with each key of the set put, where null takes the key away.
    pub fn applied(&self, set: &PropSet) -> Result<Props, OutOfMemory>
        ensures { IfOk result (λ props. props ≡ apply self.now set.now) }
    {
        let mut props = self.copy()?;
        let done = apply_all(&mut props, set);
        props.tighten();
        after(done, props)
    }

    /// The properties with the changes made: first each key is set, and then each adjustment is
    /// made, of 0 where the key has no whole number.
    pub fn changed(&self, changes: &Changes) -> Result<Props, OutOfMemory>
        ensures { IfOk result (λ props. props ≡ change self.now changes.now) }
    {
        let mut props = self.copy()?;
        let done = make_changes(&mut props, changes);
        props.tighten();
        after(done, props)
    }
}
