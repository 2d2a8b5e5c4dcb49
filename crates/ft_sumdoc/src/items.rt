//! What the reader takes from the values of a text before the values of properties and cells are
//! read.

use crate::summary::{Ends2, Mark, Marks, RunRecs, SegRecs, Texts};
use serde_json::{Map, Value};

/// What stands before the lists of a summary.
#[derive(Drop)]
pub(crate) struct HeadItem {
    pub version: u64,
    pub seq: u64,
    pub min: u64,
    pub skipped: u64,
    pub other: u64,
    pub conns: Texts,
}

/// What stamps are tested with.
#[derive(Clone, Copy)]
pub(crate) struct Limits {
    pub min: u64,
    pub seq: u64,
    /// How many connections have names.
    pub conns: u64,
}

/// The stamps that a segment or a run gives.
#[derive(Drop)]
pub(crate) struct StampItem {
    pub author: Option<Mark>,
    pub insertion: Option<Mark>,
    pub removals: Marks,
}

/// What a segment holds.
#[derive(Clone, Copy)]
pub(crate) enum BodyItem<'a> {
    /// Characters.
    Letters(&'a str),
    /// A marker of this reference type.
    Sign(u64),
}

/// A segment.
#[derive(Drop)]
pub(crate) struct SegItem<'a> {
    pub body: BodyItem<'a>,
    pub props: Option<&'a Map<String, Value>>,
    pub stamps: StampItem,
}

/// The segments of a text, and how many elements each chunk has.
#[derive(Drop)]
pub(crate) struct TextItem<'a> {
    pub segs: Vec<SegItem<'a>>,
    pub lengths: Vec<u64>,
}

/// A run of units.
#[derive(Drop)]
pub(crate) struct RunItem {
    pub units: u64,
    pub stamps: StampItem,
}

/// An interval.
#[derive(Clone, Copy)]
pub(crate) struct IntervalItem<'a> {
    pub label: &'a str,
    pub id: &'a str,
    pub ends: Ends2,
    pub props: &'a Map<String, Value>,
}

/// A cell.
#[derive(Clone, Copy)]
pub(crate) struct CellItem<'a> {
    pub row: u64,
    pub col: u64,
    pub value: &'a Value,
}

/// The lists of elements.
#[derive(Drop)]
pub(crate) struct ListItem {
    pub text: SegRecs,
    pub rows: RunRecs,
    pub cols: RunRecs,
    /// How many elements each chunk of the text has.
    pub lengths: Vec<u64>,
}
