//! The course of a generated session.

ghost use Rattle.std.specs.Prelude.{◌≡◌, ◌+◌, ◌≤◌, ◌++◌, [], None, IfSome};
ghost use Rattle.ft_gen.specs.declared.course.Place.TheVariants as place;
ghost use Rattle.ft_gen.specs.Rounds.{clients, each, from, loss};
ghost use Rattle.ft_gen.specs.Generated.{generated, shows};
ghost use Rattle.ft_gen.specs.Course.{HasToCome, IsAtRound, IsBeforeTurn, IsCourse, IsEditing, IsNextAct, edits_on, rounds_on, to_come, turns_on, with_one_less};

use crate::acts::{Act, Deed};
use crate::draws::draw;
use crate::exchange::Exchange;
use crate::opening::Opening;
use crate::progress::{Progress, Roles};

/// The turn of a client.
#[derive(Clone, Copy)]
pub struct Turn {
    /// The client.
    pub client: u64,
    /// How many edits it has still to make.
    pub edits: u64,
    /// The length of the text that was agreed on.
    pub agreed: u64,
    /// The length with the edits of all clients before it.
    pub before: u64,
    pub roles: Roles,
}

/// Where a session stands. While a client edits, the length is that of its own text.
#[derive(Clone, Copy)]
pub enum Place {
    /// Before the first round.
    Opening(Opening),
    /// A round has begun, and a client loses its connection.
    Loss { dropped: u64, remover: u64 },
    /// A client edits.
    Editing(Turn),
    /// All clients have made their edits.
    Exchange(Exchange),
    /// The views are shown, from this client's on.
    Showing(u64),
    /// Nothing is left.
    Over,
}

/// The course of a session: how many clients there are, the number of the round, how far the session
/// is, and where it stands.
#[derive(Clone, Copy)]
pub struct Course {
    pub clients: u64,
    pub round: u64,
    pub progress: Progress,
    pub place: Place,
}

impl Course {
    /// A session that has not begun.
    pub fn new(clients: u64, edits: u64, seed: u64) -> Course
        requires first { 1 ≤ clients }
        requires few { clients ≤ 16 }
        requires edits { edits ≤ 1000000 }
        ensures { HasToCome (generated clients edits seed) result }
    {
        Course {
            clients,
            round: 0,
            progress: Progress {
                state: seed,
                length: 0,
                intervals: 0,
                left: edits,
            },
            place: Place::Opening(Opening::Start(1)),
        }
    }

    /// What is done next, and the course behind it.
    pub fn step(self) -> Option<(Act, Course)>
        requires { IsCourse self }
        ensures some { IfSome result (λ s. IsNextAct (to_come self) s.0 s.1) }
        ensures none { result ≡ None → to_come self ≡ [] }
    {
        match self.place {
            Place::Opening(opening) => Some(self.open(opening)),
            Place::Loss { dropped, remover } => Some(self.lose(dropped, remover)),
            Place::Editing(turn) => Some(self.edit(turn)),
            Place::Exchange(exchange) => Some(self.exchange(exchange)),
            Place::Showing(client) => Some((Act::new(client, Deed::Show), self.show(client + 1))),
            Place::Over => None,
        }
    }

    fn at(self, place: Place) -> Course
        ensures { result ≡ record self { place = place } }
    {
        Course { place, ..self }
    }

    // Where a part of the opening is next.
    fn open(self, opening: Opening) -> (Act, Course)
        requires { IsCourse (record self { place = place.Opening opening }) }
        ensures { IsNextAct (to_come (record self { place = place.Opening opening })) result.0 result.1 }
    {
        match opening.step(self.clients) {
            (act, Some(next)) => (act, self.at(Place::Opening(next))),
            (act, None) => (act, self.begin_round()),
        }
    }

    // Where a part of the exchange is next.
    fn exchange(self, exchange: Exchange) -> (Act, Course)
        requires { IsCourse (record self { place = place.Exchange exchange }) }
        ensures { IsNextAct (to_come (record self { place = place.Exchange exchange })) result.0 result.1 }
    {
        match exchange.step(self.clients, self.round) {
            (act, Some(next)) => (act, self.at(Place::Exchange(next))),
            (act, None) => (act, self.next_round()),
        }
    }

    // The views of the clients from this one on.
    fn show(self, client: u64) -> Course
        requires first { 1 ≤ self.clients }
        requires few { self.clients ≤ 16 }
        requires next { client ≤ self.clients + 1 }
        ensures { HasToCome (each shows (from self.clients client)) result }
    {
        if client <= self.clients {
            self.at(Place::Showing(client))
        } else {
            self.at(Place::Over)
        }
    }

    // The next round, and all behind it.
    fn next_round(self) -> Course
        requires first { 1 ≤ self.clients }
        requires few { self.clients ≤ 16 }
        requires numbers { IsAtRound (self.round + 1) self.progress }
        ensures { HasToCome (rounds_on self.clients (self.round + 1) self.progress) result }
    {
        let next = Course {
            round: self.round + 1,
            ..self
        };
        next.begin_round()
    }

    // The round, if an edit is left, and all behind it.
    fn begin_round(self) -> Course
        requires first { 1 ≤ self.clients }
        requires few { self.clients ≤ 16 }
        requires numbers { IsAtRound self.round self.progress }
        ensures { HasToCome (rounds_on self.clients self.round self.progress) result }
    {
        if self.progress.left == 0 {
            return self.show(1);
        }
        let mut progress = self.progress;
        let roles = progress.roles(self.clients, self.round);
        let course = Course { progress, ..self };
        course.begin_with(roles)
    }

    // A round with these roles: the dropped client loses its connection, if there is one.
    fn begin_with(self, roles: Roles) -> Course
        requires first { 1 ≤ self.clients }
        requires few { self.clients ≤ 16 }
        requires left { 1 ≤ self.progress.left }
        requires numbers { IsAtRound self.round self.progress }
        ensures { HasToCome (loss roles.dropped ++ turns_on self.clients self.round roles self.progress.length (clients self.clients) self.progress) result }
    {
        match roles.dropped {
            Some(dropped) => self.at(Place::Loss {
                dropped,
                remover: roles.remover,
            }),
            None => self.next_turn(roles, self.progress.length, 1),
        }
    }

    // The turn of the first client from this one on that makes an edit, or what is behind all turns.
    fn next_turn(self, roles: Roles, agreed: u64, first: u64) -> Course
        requires first { 1 ≤ self.clients }
        requires few { self.clients ≤ 16 }
        requires next { first ≤ self.clients + 1 }
        requires numbers { IsBeforeTurn self.round roles agreed first self.progress }
        ensures { HasToCome (turns_on self.clients self.round roles agreed (from self.clients first) self.progress) result }
    {
        let mut progress = self.progress;
        for client in first..self.clients + 1 {
            let edits = progress.share();
            if edits > 0 {
                let turn = Turn {
                    client,
                    edits,
                    agreed,
                    before: progress.length,
                    roles,
                };
                progress.length = agreed;
                return Course {
                    progress,
                    place: Place::Editing(turn),
                    ..self
                };
            }
        }
        let exchange = Exchange::first(self.clients, roles.dropped, self.round);
        Course {
            progress,
            place: Place::Exchange(exchange),
            ..self
        }
    }

    // The loss of a connection.
    fn lose(self, dropped: u64, remover: u64) -> (Act, Course)
        requires { IsCourse (record self { place = place.Loss dropped remover }) }
        ensures { IsNextAct (to_come (record self { place = place.Loss dropped remover })) result.0 result.1 }
    {
        let roles = Roles {
            dropped: Some(dropped),
            remover,
        };
        let course = self.next_turn(roles, self.progress.length, 1);
        (Act::new(dropped, Deed::Drop), course)
    }

    // An edit of the turn.
    fn edit(self, turn: Turn) -> (Act, Course)
        requires { IsCourse (record self { place = place.Editing turn }) }
        ensures { IsNextAct (to_come (record self { place = place.Editing turn })) result.0 result.1 }
    {
        let mut progress = self.progress;
        let op = progress.edit(turn.client == turn.roles.remover);
        let course = Course { progress, ..self };
        (
            Act::new(turn.client, Deed::Edit(op)),
            course.behind_edit(turn),
        )
    }

    // What is behind an edit of the turn.
    fn behind_edit(self, turn: Turn) -> Course
        requires first { 1 ≤ self.clients }
        requires few { self.clients ≤ 16 }
        requires numbers { IsEditing self.clients self.round (with_one_less turn) self.progress }
        ensures { HasToCome (edits_on self.clients self.round (with_one_less turn) self.progress) result }
    {
        if turn.edits > 1 {
            let turn = Turn {
                edits: turn.edits - 1,
                ..turn
            };
            return self.at(Place::Editing(turn));
        }
        let mut progress = self.progress;
        progress.length = turn.before + progress.length - turn.agreed;
        let course = Course { progress, ..self };
        course.next_turn(turn.roles, turn.agreed, turn.client + 1)
    }
}
