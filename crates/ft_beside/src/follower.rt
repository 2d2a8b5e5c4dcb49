//! One who follows what a client shows.

use crate::comparing::is_view;
use ft_change_lines::told_from_nothing;
use ft_changes::ViewChanges;
use ft_msg::Replica;
use ft_shown::Shown;
use std::alloc::Global;

/// What is shown of a client by the changes that it tells, and whether that was its view each time.
#[derive(Drop)]
pub struct Follower {
    shown: Shown,
    is_led: bool,
}

impl Follower {
    /// Before the first change, of a client that shows nothing.
    pub fn new(alloc: Global) -> Follower {
        Follower {
            shown: Shown::new(alloc),
            is_led: true,
        }
    }

    /// Before the first change, of this client.
    pub fn of<R: Replica>(alloc: Global, client: &R) -> Follower {
        let mut follower = Follower::new(alloc);
        follower.begin(alloc, client);
        follower
    }

    /// Whether what is shown was the view each time.
    pub fn is_led(&self) -> bool {
        self.is_led
    }

    /// Applies the changes, and compares with what the client shows then.
    pub fn follow<R: Replica>(&mut self, client: &R, changes: ViewChanges) {
        let applied = self.shown.apply_all(changes);
        self.is_led = self.is_led && applied.is_ok() && self.shows(client);
    }

    // Shows what the client shows.
    fn begin<R: Replica>(&mut self, alloc: Global, client: &R) {
        let Ok(view) = client.view() else {
            return;
        };
        let told = told_from_nothing(alloc, &view);
        drop(view);
        match told {
            Ok(changes) => self.follow(client, changes),
            Err(_) => self.is_led = false,
        }
    }

    // Whether it shows what the client shows. One that has stopped shows nothing.
    fn shows<R: Replica>(&self, client: &R) -> bool {
        let Ok(view) = client.view() else {
            return true;
        };
        let is_shown = is_view(&self.shown, &view);
        drop(view);
        is_shown
    }
}
