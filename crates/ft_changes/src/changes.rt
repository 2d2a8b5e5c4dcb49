//! Changes of what a client shows.

use ft_base::{List, Text};
use ft_json::ValText;
use ft_op::operations::{Seg, Target};
use ft_props::Props;
use ft_sumdoc::summary::IntervalRec;

/// One change of what is shown. Its places are those that the changes before it leave.
#[derive(Drop)]
pub enum ViewChange {
    /// The segment goes in, with these properties, in front of the element at `pos`, or at the end.
    Put {
        pos: u64,
        seg: Seg,
        props: Props,
    },
    /// `count` elements from `pos` on go away. An end of an interval on one of them goes to the next
    /// element, else to the last one before, else it is detached.
    Take {
        pos: u64,
        count: u64,
    },
    /// `count` elements from `pos` on have these properties now, and no others.
    Style {
        pos: u64,
        count: u64,
        props: Props,
    },
    /// `count` rows or columns go in, in front of number `pos`, or at the end.
    PutUnits {
        target: Target,
        pos: u64,
        count: u64,
    },
    /// `count` rows or columns from number `pos` on go away, with their cells.
    TakeUnits {
        target: Target,
        pos: u64,
        count: u64,
    },
    /// The cell has this value now.
    SetCell {
        row: u64,
        col: u64,
        value: ValText,
    },
    /// The cell has no value any more.
    ClearCell {
        row: u64,
        col: u64,
    },
    /// The interval is new, or has these ends and these properties now.
    SetInterval {
        interval: IntervalRec,
    },
    /// The interval is gone.
    DropInterval {
        label: Text,
        id: Text,
    },
}

/// Changes, in order.
pub type ViewChanges = List<ViewChange>;
