//! What the leaves of a text hold: runs of characters, and markers.

ghost use Rattle.std.specs.Prelude.{◌≡◌, IfOk, IfSome, chars};
ghost use Rattle.std.specs.Option.{option_map};
ghost use Rattle.ft_tree_leaves.specs.declared.text.TextPiece.TheVariants.{Marker, Run};
ghost use Rattle.ft_tree_leaves.specs.TextLeaves.{front_text, joined_text, new_text, rear_text, ref_type_of, same_author, stamped_text, text_author, text_of, text_units, texts_join};
ghost use Rattle.ft_tree_leaves.specs.TextRuns.{IsTextRun};
ghost use Rattle.ft_tree_leaves.specs.TextLaws.{front_text_units, joined_text_units, joined_text_by, rear_text_units};
ghost use Rattle.std.proofs.Common.{refl};

use crate::authors::Author;
use crate::content::Content;
use crate::text_runs::{MAX_RUN, TextRun};
use ft_base::{OutOfMemory, Stamp};
use std::alloc::Global;
use std::marker::Model;

/// Characters or a marker.
#[derive(Drop)]
pub enum TextPiece {
    /// 1 to 256 characters.
    Run(TextRun),
    /// A marker with its reference type.
    Marker { ref_type: u64 },
}

/// The content of a leaf of a text: 1 to 256 characters of one insertion, or one marker.
#[derive(Drop)]
pub struct TextContent {
    piece: TextPiece,
    by: Author,
}

/// One element of a text, which contracts see as the content of the document's element.
pub struct TextUnit {
    kind: UnitKind,
}

enum UnitKind {
    Character(char),
    Marker { ref_type: u64 },
}

impl Model for TextUnit {
    ghost use Rattle.ft_props.specs.Element.{ElementContent};
    ghost use Rattle.ft_tree_leaves.specs.TextUnits.{unit_content};

    ghost Value = { ElementContent };

    ghost view = { λ a. unit_content a.kind };
}

impl TextContent {
    /// A run of the characters of `text`, of a pending insertion.
    pub fn run(alloc: Global, text: &str) -> Result<TextContent, OutOfMemory>
        requires { IsTextRun (chars text.now) }
        ensures { IfOk result (λ leaf. leaf ≡ new_text (Run (chars text.now))) }
    {
        Ok(TextContent {
            piece: TextPiece::Run(TextRun::new(alloc, text)?),
            by: Author::pending(),
        })
    }

    /// A marker with this reference type, of a pending insertion.
    pub fn marker(ref_type: u64) -> TextContent
        ensures { result ≡ new_text (Marker ref_type) }
    {
        TextContent {
            piece: TextPiece::Marker { ref_type },
            by: Author::pending(),
        }
    }

    /// The characters: None exactly for a marker.
    pub fn text(&self) -> Option<&str>
        ensures value { option_map (λ text. chars text.now) result ≡ text_of self.now }
        ensures run { IfSome result (λ text. IsTextRun (chars text.now)) }
    {
        match &self.piece {
            TextPiece::Run(run) => Some(run.as_str()),
            TextPiece::Marker { .. } => None,
        }
    }

    /// The reference type of the marker: None exactly for a run.
    pub fn ref_type(&self) -> Option<u64>
        ensures { result ≡ ref_type_of self.now }
    {
        match &self.piece {
            TextPiece::Run(_) => None,
            TextPiece::Marker { ref_type } => Some(*ref_type),
        }
    }

    /// The number and connection of the insertion's message: None exactly while the insertion is
    /// pending.
    pub fn by(&self) -> Option<Stamp>
        ensures { result ≡ self.now.by }
    {
        self.by.stamp()
    }
}

impl Content for TextContent {
    type Unit = TextUnit;

    ghost units = { text_units };

    ghost by = { λ x. x.by };

    ghost author = { text_author };

    ghost front = { front_text };

    ghost rear = { rear_text };

    ghost joins = { texts_join };

    ghost joined = { joined_text };

    ghost stamped = { stamped_text };

    fn len(&self) -> u64 {
        match &self.piece {
            TextPiece::Run(run) => run.len(),
            TextPiece::Marker { .. } => 1,
        }
    }

    fn split(&mut self, at: u64) -> Result<TextContent, OutOfMemory> {
        match &mut self.piece {
            TextPiece::Run(run) => Ok(TextContent {
                piece: TextPiece::Run(run.split(at)?),
                by: self.by.copy(),
            }),
            TextPiece::Marker { .. } => unreachable!(),
        }
    }

    fn can_join(&self, other: &TextContent) -> bool {
        match (&self.piece, &other.piece) {
            (TextPiece::Run(mine), TextPiece::Run(theirs)) => {
                is_same_author(self.by(), other.by()) && mine.len() + theirs.len() <= MAX_RUN
            }
            _ => false,
        }
    }

    fn join(&mut self, other: TextContent) -> Result<(), TextContent> {
        match (&mut self.piece, &other.piece) {
            (TextPiece::Run(mine), TextPiece::Run(theirs)) => match mine.append(theirs) {
                Ok(()) => Ok(()),
                Err(OutOfMemory) => Err(other),
            },
            _ => unreachable!(),
        }
    }

    fn stamped(&mut self, seq: u64, conn: u32) {
        self.by = Author::known(seq, conn);
    }

    ghost front_units = { front_text_units };

    ghost front_by = { λ x at low high. refl };

    ghost rear_units = { rear_text_units };

    ghost rear_by = { λ x at low high. refl };

    ghost joined_units = { joined_text_units };

    ghost joined_by = { λ x y can. refl };

    ghost joins_by = { joined_text_by };

    ghost stamped_units = { λ x s c. refl };

    ghost stamped_by = { λ x s c. refl };
}

// Whether both insertions have the same author, or both are pending.
fn is_same_author(mine: Option<Stamp>, theirs: Option<Stamp>) -> bool
    ensures { result ≡ same_author mine theirs }
{
    mine == theirs
}
