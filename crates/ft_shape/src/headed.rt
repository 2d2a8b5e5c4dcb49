//! What each block of a balanced tree keeps.

/// What a block keeps: how many levels of blocks it heads, and what else the tree is for.
#[derive(Drop)]
pub struct Headed<S> {
    /// What it keeps of the leaves below it.
    pub sum: S,
    /// How many levels of blocks it heads, from 1.
    pub height: u64,
}
