//! Who inserted the elements of a text.

ghost use Rattle.std.specs.Prelude.{◌≡◌, None};
ghost use Rattle.ft_tree_leaves.specs.TextLeaves.{text_author};

use ft_base::Stamp;
use std::marker::Model;

/// The number and connection of an insertion's message; none of them while the insertion is pending. It takes half
/// the room of an optional stamp. Contracts see that.
#[derive(Drop)]
pub(crate) struct Author {
    seq: u64,
    conn: u32,
    is_known: bool,
}

impl Model for Author {
    ghost use Rattle.std.specs.Prelude.{Option, Some, None, cond};
    ghost use Rattle.ft_base.specs.declared.stamps.Stamp.{Stamp};
    ghost use Rattle.ft_base.specs.declared.stamps.Stamp.TheVariants.{Acked};

    ghost Value = { Option Stamp };

    ghost view = { λ a. cond a.is_known (Some (Acked a.seq a.conn)) None };
}

impl Author {
    /// Of a pending insertion.
    pub(crate) fn pending() -> Author
        ensures { result ≡ None }
    {
        Author {
            seq: 0,
            conn: 0,
            is_known: false,
        }
    }

    /// Of an insertion that was sequenced under number `seq` of connection `conn`.
    pub(crate) fn known(seq: u64, conn: u32) -> Author
        ensures { result ≡ text_author seq conn }
    {
        Author {
            seq,
            conn,
            is_known: true,
        }
    }

    /// The message's number and connection as a stamp: None exactly while the insertion is pending.
    pub(crate) fn stamp(&self) -> Option<Stamp>
        ensures { result ≡ self.now }
    {
        if !self.is_known {
            return None;
        }
        Some(Stamp::Acked {
            seq: self.seq,
            conn: self.conn,
        })
    }

    /// The same author.
    pub(crate) fn copy(&self) -> Author
        ensures { result ≡ self.now }
    {
        Author {
            seq: self.seq,
            conn: self.conn,
            is_known: self.is_known,
        }
    }
}
