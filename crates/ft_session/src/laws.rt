//! What holds of every world that the code reaches.

ghost use Rattle.ft_session.specs.WorldLaws.{JoinsKeepViews, SameNumbersCountTheSame, SameNumbersShowTheSame, ShowsApplied};

use crate::world::World;
use ft_msg::Replica;

impl<R: Replica + Drop> World<R> {
    /// What holds of it, in each naive world for which it stands: each client shows what all would see
    /// with its pending operations sequenced next; clients with equal numbers count alike, and with
    /// nothing pending show alike and tell alike who inserted their text; and a client's own join changes
    /// nothing that it shows. It does nothing.
    pub fn laws(&self)
        ensures views { ShowsApplied self.now }
        ensures counts { SameNumbersCountTheSame self.now }
        ensures same { SameNumbersShowTheSame self.now }
        ensures joins { JoinsKeepViews self.now }
    {}
}
