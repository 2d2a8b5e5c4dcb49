//! Where the ends of intervals stand, as an index asks for it.

ghost use Rattle.ft_interval_index.specs.Order.{IsLiveIn, IsPlaced, list_place};
ghost use Rattle.ft_interval_store.specs.Shown.{shown_place};
ghost use Rattle.ft_interval_store.specs.State.{text_elements};

use ft_interval_store::standing::shown_number;
use ft_overlap::Places;
use ft_refs::RefId;
use ft_tree::{TextContent, Tree};

/// The places of references in the whole list, -1 where they are detached.
#[derive(Clone, Copy)]
pub struct ListPlaces<'a> {
    pub tree: &'a Tree<TextContent>,
}

impl<'a> Places for ListPlaces<'a> {
    ghost end_place = { λ at r. list_place at.tree.now.refs r };

    ghost Knows = { λ at r. IsPlaced at.tree.now r };

    fn place(&self, end: u64) -> i64 {
        match self.tree.ref_index(RefId(end as usize)) {
            Some(place) => place as i64,
            None => -1,
        }
    }

    // A detached end stands before all that are attached.
    fn is_before(&self, x: u64, y: u64) -> bool {
        let Some(second) = self.tree.ref_at(RefId(y as usize)) else {
            return false;
        };
        let Some(first) = self.tree.ref_at(RefId(x as usize)) else {
            return true;
        };
        self.tree.is_before(&first, &second)
    }
}

/// The numbers of references among the elements that the client sees, -1 where they are detached.
#[derive(Clone, Copy)]
pub struct ShownPlaces<'a> {
    pub tree: &'a Tree<TextContent>,
}

impl<'a> Places for ShownPlaces<'a> {
    ghost end_place = { λ at r. shown_place (text_elements at.tree.now) at.tree.now.refs r };

    ghost Knows = { λ at r. IsLiveIn at.tree.now r };

    fn place(&self, end: u64) -> i64 {
        shown_number(self.tree, RefId(end as usize))
    }

    fn is_before(&self, x: u64, y: u64) -> bool {
        self.place(x) < self.place(y)
    }
}
