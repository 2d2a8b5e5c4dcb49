//! Kinds of edits.

ghost use Rattle.std.specs.Prelude.{◌≡◌};
ghost use Rattle.ft_gen.specs.Edits.{edit_kind};

/// A kind of edit.
#[derive(Clone, Copy, Debug, PartialEq, Eq)]
pub enum Kind {
    /// Letters go into the text.
    Insertion,
    /// Elements of the text are removed.
    Removal,
    /// A property of an element changes.
    Annotation,
    /// A cell of the grid is written.
    CellWrite,
    /// An interval is added.
    NewInterval,
}

impl Kind {
    /// The kind of the edit that drew `k`, by a client that shows a text of this length, and may
    /// remove or not.
    pub fn new(removes: bool, length: u64, k: u64) -> Kind
        ensures { result ≡ edit_kind removes length k }
    {
        match k {
            5 | 6 if removes && length > 0 => Kind::Removal,
            7 if length > 0 => Kind::Annotation,
            8 => Kind::CellWrite,
            9.. if length > 0 => Kind::NewInterval,
            _ => Kind::Insertion,
        }
    }
}
