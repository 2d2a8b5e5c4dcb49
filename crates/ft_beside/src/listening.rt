//! A client that is listened to as it is played.

use crate::follower::Follower;
use ft_attrib::Attribution;
use ft_base::{OutOfMemory, Text};
use ft_changes::{Telling, ViewChanges};
use ft_msg::{
    Draft, EditFault, Entry, LinkFault, Names, Numbers, ProcessFault, Replica, SummaryFault, View,
    ViewFault,
};
use ft_op::ChannelOp;
use ft_sumdoc::{IntervalRec, SumDoc};
use std::alloc::Global;

/// A client with one who follows what it shows by the changes that it tells. It does what the client does, but hands out no view
/// any more once the other one has lost it: then it says that there was no memory.
#[derive(Drop)]
pub struct Listening<R: Telling> {
    alloc: Global,
    client: R,
    follower: Follower,
}

impl<R: Telling + Drop> Replica for Listening<R> {
    ghost state = { λ a. R.state a.client };

    ghost COMPACTS = { R.COMPACTS };

    const COMPACTS: bool = R::COMPACTS;

    fn start(alloc: Global) -> Result<Listening<R>, OutOfMemory> {
        let client = R::start(alloc)?;
        Ok(Listening {
            alloc,
            client,
            follower: Follower::new(alloc),
        })
    }

    fn from_summary(alloc: Global, doc: &SumDoc) -> Result<Listening<R>, OutOfMemory> {
        let client = R::from_summary(alloc, doc)?;
        let follower = Follower::of(alloc, &client);
        Ok(Listening {
            alloc,
            client,
            follower,
        })
    }

    fn edit(&mut self, op: &ChannelOp) -> Result<(), EditFault> {
        let mut changes = ViewChanges::new(self.alloc);
        let answer = self.client.edit_telling(op, &mut changes);
        self.follower.follow(&self.client, changes);
        answer
    }

    fn process(&mut self, entry: &Entry) -> Result<(), ProcessFault> {
        let mut changes = ViewChanges::new(self.alloc);
        let answer = self.client.process_telling(entry, &mut changes);
        self.follower.follow(&self.client, changes);
        answer
    }

    fn connect(&mut self, conn: u32) -> Result<(), LinkFault> {
        self.client.connect(conn)
    }

    fn drop_link(&mut self) -> Result<(), LinkFault> {
        self.client.drop_link()
    }

    fn noop(&mut self) -> Result<(), LinkFault> {
        self.client.noop()
    }

    fn queued(&self) -> usize {
        self.client.queued()
    }

    fn queue_at(&self, i: usize) -> Option<&Draft> {
        self.client.queue_at(i)
    }

    fn numbers(&self) -> Numbers {
        self.client.numbers()
    }

    fn take_outgoing(&mut self) -> Option<Draft> {
        self.client.take_outgoing()
    }

    fn view(&self) -> Result<View, ViewFault> {
        let view = self.client.view()?;
        if self.follower.is_led() {
            Ok(view)
        } else {
            Err(ViewFault::OutOfMemory)
        }
    }

    fn summary(&self, names: &Names) -> Result<SumDoc, SummaryFault> {
        self.client.summary(names)
    }

    fn compact(&mut self) -> Result<(), ViewFault> {
        let answer = self.client.compact();
        self.follower
            .follow(&self.client, ViewChanges::new(self.alloc));
        answer
    }

    fn attribution(&self) -> Result<Attribution, ViewFault> {
        self.client.attribution()
    }

    fn overlapping(&self, label: &Text, a: u64, b: u64) -> Result<Vec<IntervalRec>, ViewFault> {
        self.client.overlapping(label, a, b)
    }
}
