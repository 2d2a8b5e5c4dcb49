//! Properties and what changes them.

use crate::pairs::Pairs;
use ft_base::{Datum, OutOfMemory};
use ft_json::ValText;

/// What an operation sets: pairs of a key and a value by rising keys, where None stands for null,
/// which takes the key away.
pub type PropSet = Pairs<Option<ValText>>;

/// The properties of an element or an interval: pairs of a key and a value by rising keys.
pub type Props = Pairs<ValText>;

/// Adjustments by rising keys.
pub type AdjSet = Pairs<Adjust>;

/// An adjustment of the whole number that a key has: `delta` is added, and the sum is raised to
/// `min`, then lowered to `max`, where these are given.
#[derive(Clone, Copy, Debug, PartialEq, Eq)]
pub struct Adjust {
    pub delta: i64,
    pub min: Option<i64>,
    pub max: Option<i64>,
}

impl Datum for Adjust {
    fn copy(&self) -> Result<Adjust, OutOfMemory> {
        Ok(*self)
    }

    fn same(&self, other: &Adjust) -> bool {
        self.delta == other.delta && self.min == other.min && self.max == other.max
    }
}

/// What an annotation changes: the keys that it sets, then those that it adjusts. No key is in
/// both.
#[derive(Drop)]
pub struct Changes {
    pub props: PropSet,
    pub adjust: AdjSet,
}

impl Datum for Changes {
    fn copy(&self) -> Result<Changes, OutOfMemory> {
        Ok(Changes {
            props: self.props.copy()?,
            adjust: self.adjust.copy()?,
        })
    }

    fn same(&self, other: &Changes) -> bool {
        self.props.same(&other.props) && self.adjust.same(&other.adjust)
    }
}
