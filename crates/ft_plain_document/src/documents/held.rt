//! How many elements a document ever held.

ghost use Rattle.std.specs.Prelude.{◌≡◌};
ghost use Rattle.ft_msg.specs.Answers.{held_in};

use crate::documents::PlainDocument;
use std::marker::Model;

/// How many elements were ever in each list of a document, those that are pending included.
#[derive(Drop)]
pub struct Held {
    text: u64,
    rows: u64,
    cols: u64,
}

impl Model for Held {
    ghost use Rattle.ft_msg.specs.Answers.{HeldCounts};

    ghost Value = { HeldCounts };

    ghost view = { λ a. record { text = a.text; rows = a.rows; cols = a.cols } };
}

impl Held {
    /// How many were ever in the text.
    pub fn text(&self) -> u64
        ensures { result ≡ self.now.text }
    {
        self.text
    }

    /// How many were ever in the rows.
    pub fn rows(&self) -> u64
        ensures { result ≡ self.now.rows }
    {
        self.rows
    }

    /// How many were ever in the columns.
    pub fn cols(&self) -> u64
        ensures { result ≡ self.now.cols }
    {
        self.cols
    }
}

impl PlainDocument {
    /// How many elements it ever held.
    pub fn held(&self) -> Held
        ensures { result ≡ held_in self.now }
    {
        Held {
            text: self.text.held(),
            rows: self.rows.held(),
            cols: self.cols.held(),
        }
    }
}
