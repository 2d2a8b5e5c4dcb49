//! How far a generated session is.

ghost use Rattle.std.specs.Prelude.{◌≡◌, ◌≤◌};
ghost use Rattle.ft_gen.specs.Rounds.{round_roles, share, with_roles, with_share};

use crate::draws::draw;

/// How far a generated session is.
#[derive(Clone, Copy)]
pub struct Progress {
    /// The state of the draws.
    pub state: u64,
    /// The length of the text.
    pub length: u64,
    /// How many intervals were added.
    pub intervals: u64,
    /// How many edits are left.
    pub left: u64,
}

/// What two clients do in a round, each by its number.
#[derive(Clone, Copy)]
pub struct Roles {
    /// The one that loses its connection, if one does.
    pub dropped: Option<u64>,
    /// The one that may remove.
    pub remover: u64,
}

impl Progress {
    /// Draws the roles in a round of so many clients.
    pub fn roles(&mut self, clients: u64, round: u64) -> Roles
        requires first { 1 ≤ clients }
        requires few { clients ≤ 16 }
        ensures roles { result ≡ round_roles clients round self.old }
        ensures progress { self.new ≡ with_roles round self.old }
    {
        if round % 8 == 7 {
            Roles {
                dropped: Some(draw(&mut self.state, clients) + 1),
                remover: draw(&mut self.state, clients) + 1,
            }
        } else {
            Roles {
                dropped: None,
                remover: draw(&mut self.state, clients) + 1,
            }
        }
    }

    /// Draws how many edits the next client makes, which are then no more left.
    pub fn share(&mut self) -> u64
        ensures share { result ≡ share self.old }
        ensures progress { self.new ≡ with_share self.old }
    {
        let share = self.left.min(draw(&mut self.state, 3) + 1);
        self.left -= share;
        share
    }
}
