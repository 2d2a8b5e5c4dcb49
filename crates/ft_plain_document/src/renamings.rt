//! New names of elements whose stages are acknowledged.

ghost use Rattle.std.specs.Prelude.{◌≡◌, [], ◌∷◌, ◌++◌, IfOk, OnOk, OnErr};
ghost use Rattle.ft_msg.specs.Acknowledgement.{renamed, renamed_names};
ghost use Rattle.ft_plain_document.specs.Renamed.{renaming_of};

use ft_base::OutOfMemory;
use ft_plain_lists::{ElementName, ElementNames};
use std::alloc::Global;
use std::marker::Model;

/// The stages that are acknowledged so far, each with how many elements were sequenced before in its list.
#[derive(Drop)]
pub struct Renaming {
    acked: Vec<(u64, u64)>,
}

impl Model for Renaming {
    ghost use Rattle.std.specs.Prelude.{ℕ, List};

    ghost Value = { List (ℕ × ℕ) };

    ghost view = { λ a. a.acked.items };
}

impl Renaming {
    /// No stage is acknowledged.
    pub(crate) fn new(alloc: Global) -> Renaming
        ensures { result ≡ [] }
    {
        Renaming {
            acked: Vec::new(alloc),
        }
    }

    /// Adds a stage in whose list `made` elements were sequenced before.
    ///
    /// Returns `OutOfMemory` where there is no room for it, and then nothing changed.
    pub(crate) fn push(&mut self, stage: u64, made: u64) -> Result<(), OutOfMemory>
        ensures ok { OnOk result (self.new ≡ self.old ++ (stage, made) ∷ []) }
        ensures err { OnErr result (self.new ≡ self.old) }
    {
        self.acked.push((stage, made))?;
        Ok(())
    }

    // The new name of an element.
    //
    // Returns `OutOfMemory` where its number would pass 2^64 - 1.
    fn name(&self, name: ElementName) -> Result<ElementName, OutOfMemory>
        ensures { IfOk result (λ new. new ≡ renaming_of self.now name) }
    {
        let mut new = name;
        for (stage, made) in &self.acked {
            new = new.acked(*stage, *made)?;
        }
        Ok(new)
    }

    // The new name of an element, if one is named.
    //
    // Returns `OutOfMemory` where its number would pass 2^64 - 1.
    fn given_name(&self, name: Option<ElementName>) -> Result<Option<ElementName>, OutOfMemory>
        ensures { IfOk result (λ new. new ≡ renamed (renaming_of self.now) name) }
    {
        match name {
            Some(name) => Ok(Some(self.name(name)?)),
            None => Ok(None),
        }
    }

    /// Both elements by their new names.
    ///
    /// Returns `OutOfMemory` where a number would pass 2^64 - 1.
    pub fn names(&self, names: &ElementNames) -> Result<ElementNames, OutOfMemory>
        ensures { IfOk result (λ new. new ≡ renamed_names (renaming_of self.now) names.now) }
    {
        Ok(ElementNames::new(
            self.given_name(names.first())?,
            self.given_name(names.second())?,
        ))
    }
}
