//! Copies of messages and drafts, and whether two are the same.

ghost use Rattle.std.specs.Prelude.{◌≡◌, ◌↔◌, IsTrue};

use crate::messages::{Body, Draft, Entry, Message, MsgKind};
use crate::views::{Link, Numbers, Run, Spot, View};
use ft_base::moved::{all_three, both};
use ft_base::{Datum, OutOfMemory, Text};

// Whether it is the kind of this other word.
fn is_other(kind: &MsgKind, word: &Text) -> bool
    ensures { IsTrue result ↔ (kind.now ≡ MsgKind.Other word.now) }
{
    match kind {
        MsgKind::Other(other) => other.same(word),
        MsgKind::Op | MsgKind::Join | MsgKind::Leave | MsgKind::Noop => false,
    }
}

impl Datum for MsgKind {
    fn copy(&self) -> Result<MsgKind, OutOfMemory> {
        match self {
            MsgKind::Op => Ok(MsgKind::Op),
            MsgKind::Join => Ok(MsgKind::Join),
            MsgKind::Leave => Ok(MsgKind::Leave),
            MsgKind::Noop => Ok(MsgKind::Noop),
            MsgKind::Other(word) => Ok(MsgKind::Other(word.copy()?)),
        }
    }

    fn same(&self, other: &MsgKind) -> bool {
        match self {
            MsgKind::Op => matches!(other, MsgKind::Op),
            MsgKind::Join => matches!(other, MsgKind::Join),
            MsgKind::Leave => matches!(other, MsgKind::Leave),
            MsgKind::Noop => matches!(other, MsgKind::Noop),
            MsgKind::Other(word) => is_other(other, word),
        }
    }
}

impl Datum for Body {
    fn copy(&self) -> Result<Body, OutOfMemory> {
        match self {
            Body::Nothing => Ok(Body::Nothing),
            Body::Op(op) => Ok(Body::Op(op.copy()?)),
            Body::Elsewhere(address) => Ok(Body::Elsewhere(address.copy()?)),
        }
    }

    fn same(&self, other: &Body) -> bool {
        match (self, other) {
            (Body::Nothing, Body::Nothing) => true,
            (Body::Op(mine), Body::Op(theirs)) => mine.same(theirs),
            (Body::Elsewhere(mine), Body::Elsewhere(theirs)) => mine.same(theirs),
            (Body::Nothing, Body::Op(_) | Body::Elsewhere(_))
            | (Body::Op(_), Body::Nothing | Body::Elsewhere(_))
            | (Body::Elsewhere(_), Body::Nothing | Body::Op(_)) => false,
        }
    }
}

impl Datum for Message {
    fn copy(&self) -> Result<Message, OutOfMemory> {
        Ok(Message {
            client_id: self.client_id.copy()?,
            seq: self.seq,
            min: self.min,
            client_seq: self.client_seq,
            ref_seq: self.ref_seq,
            kind: self.kind.copy()?,
            body: self.body.copy()?,
        })
    }

    fn same(&self, other: &Message) -> bool {
        self.client_id.same(&other.client_id)
            && self.seq == other.seq
            && self.min == other.min
            && self.client_seq == other.client_seq
            && self.ref_seq == other.ref_seq
            && self.kind.same(&other.kind)
            && self.body.same(&other.body)
    }
}

impl Datum for Entry {
    fn copy(&self) -> Result<Entry, OutOfMemory> {
        Ok(Entry {
            msg: self.msg.copy()?,
            origin: self.origin,
        })
    }

    fn same(&self, other: &Entry) -> bool {
        self.msg.same(&other.msg) && self.origin == other.origin
    }
}

impl Datum for Draft {
    fn copy(&self) -> Result<Draft, OutOfMemory> {
        Ok(Draft {
            client_seq: self.client_seq,
            ref_seq: self.ref_seq,
            body: self.body.copy()?,
        })
    }

    fn same(&self, other: &Draft) -> bool {
        self.client_seq == other.client_seq
            && self.ref_seq == other.ref_seq
            && self.body.same(&other.body)
    }
}

impl Datum for Link {
    fn copy(&self) -> Result<Link, OutOfMemory> {
        Ok(*self)
    }

    fn same(&self, other: &Link) -> bool {
        self == other
    }
}

impl Datum for Numbers {
    fn copy(&self) -> Result<Numbers, OutOfMemory> {
        Ok(*self)
    }

    fn same(&self, other: &Numbers) -> bool {
        self == other
    }
}

impl Datum for Run {
    fn copy(&self) -> Result<Run, OutOfMemory> {
        Ok(Run {
            start: self.start,
            end: self.end,
            props: self.props.copy()?,
        })
    }

    fn same(&self, other: &Run) -> bool {
        self.start == other.start && self.end == other.end && self.props.same(&other.props)
    }
}

impl Datum for Spot {
    fn copy(&self) -> Result<Spot, OutOfMemory> {
        Ok(*self)
    }

    fn same(&self, other: &Spot) -> bool {
        self == other
    }
}

impl Datum for View {
    fn copy(&self) -> Result<View, OutOfMemory> {
        let (text, markers, runs) = all_three(
            self.text.copy(),
            self.markers.copy(),
            self.runs.copy(),
        )?;
        let (intervals, cells) = both(self.intervals.copy(), self.cells.copy())?;
        Ok(View {
            numbers: self.numbers,
            text,
            markers,
            runs,
            intervals,
            rows: self.rows,
            cols: self.cols,
            cells,
        })
    }

    fn same(&self, other: &View) -> bool {
        self.numbers == other.numbers
            && self.text.same(&other.text)
            && self.markers.same(&other.markers)
            && self.runs.same(&other.runs)
            && self.intervals.same(&other.intervals)
            && self.rows == other.rows
            && self.cols == other.cols
            && self.cells.same(&other.cells)
    }
}
