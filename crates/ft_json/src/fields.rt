//! The names of the fields of the JSON objects that are read and written.

ghost use Rattle.std.specs.Prelude.{◌≡◌};
ghost use Rattle.ft_json.specs.Fields.{field_name};

use std::fmt;

/// A field of an object that is read or written, or a name for the whole of one.
#[derive(Clone, Copy, Debug, PartialEq, Eq)]
pub enum Field {
    /// `address`: the channel that an operation is for.
    Address,
    /// `adjust`: the adjustments of an annotation.
    Adjust,
    /// `by`: who inserted.
    By,
    /// `cells`: the cells of a summary.
    Cells,
    /// `client`: the client of an event.
    Client,
    /// `clientId`: the connection that sent a message.
    ClientId,
    /// `clientSequenceNumber`: the number that the sender gave a message.
    ClientSequenceNumber,
    /// `col`: the column of a cell.
    Col,
    /// `cols`: the columns of a summary.
    Cols,
    /// `conns`: the names of the connections of a summary.
    Conns,
    /// `contents`: the operation of a message.
    Contents,
    /// `count`: how many.
    Count,
    /// `delta`: what an adjustment adds.
    Delta,
    /// `do`: the word of an event.
    Do,
    /// `end`: where an interval or a range ends.
    End,
    /// `from`: the client whose summary a new client starts from.
    From,
    /// `guest`: the guest of an event.
    Guest,
    /// `id`: the id of an interval.
    Id,
    /// `i`: in a summary, the stamp of the insertion.
    Insertion,
    /// `a`: in a summary, who inserted.
    Inserter,
    /// `interval`: what an interval operation does.
    Interval,
    /// `intervals`: the intervals of a summary.
    Intervals,
    /// `key`: the key of an entry of a map.
    Key,
    /// `type`: what kind of operation or message it is.
    Kind,
    /// `label`: the label of an interval.
    Label,
    /// `line`: a line as a whole.
    Line,
    /// `marker`: the marker that is inserted.
    Marker,
    /// `max`: the greatest value that an adjustment leaves.
    Max,
    /// `message`: a message as a whole.
    Message,
    /// `min`: the least value that an adjustment leaves, or the minimum sequence number of a summary.
    Min,
    /// `minimumSequenceNumber`: the minimum sequence number of a message.
    MinimumSequenceNumber,
    /// `op`: the operation of an event.
    Op,
    /// `ops`: the operations of a group.
    Ops,
    /// `other`: how many operations were for another address.
    Other,
    /// `pairs`: the entries of a map's summary.
    Pairs,
    /// `pending`: whether the elements are pending.
    Pending,
    /// `pos1`: the place of an operation, or where its range starts.
    Pos1,
    /// `pos2`: where the range of an operation ends.
    Pos2,
    /// `props`: properties.
    Props,
    /// `referenceSequenceNumber`: the number of the last message that the sender had processed.
    ReferenceSequenceNumber,
    /// `refType`: the reference type of a marker.
    RefType,
    /// `r`: in a summary, the stamps of the removals.
    Removals,
    /// `row`: the row of a cell.
    Row,
    /// `rows`: the rows of a summary.
    Rows,
    /// `n`: in a summary, how many units a run has.
    RunLength,
    /// `seg`: what is inserted.
    Seg,
    /// `m`: in a summary, the reference type of a marker.
    SegmentMarker,
    /// `p`: in a summary, the properties of a segment.
    SegmentProps,
    /// `t`: in a summary, the characters of a segment.
    SegmentText,
    /// `seq`: the sequence number of a summary or of an insertion.
    Seq,
    /// `sequenceNumber`: the sequence number of a message.
    SequenceNumber,
    /// `skipped`: how many operations were out of range.
    Skipped,
    /// `start`: where an interval or a range starts.
    Start,
    /// `summary`: a summary as a whole.
    Summary,
    /// `target`: whether a splice is of rows or of columns.
    Target,
    /// `text`: the characters of a segment, or the text of a summary.
    Text,
    /// `value`: the value of a cell or of an entry of a map.
    Value,
    /// `version`: the version of a summary.
    Version,
}

impl Field {
    /// The name as it stands in the JSON.
    #[tactic(auto, unfolding(crate::specs::Fields::field_name))]
    pub fn name(self) -> &'static str
        ensures { result.now ≡ field_name self }
    {
        match self {
            Field::Address => "address",
            Field::Adjust => "adjust",
            Field::By => "by",
            Field::Cells => "cells",
            Field::Client => "client",
            Field::ClientId => "clientId",
            Field::ClientSequenceNumber => "clientSequenceNumber",
            Field::Col => "col",
            Field::Cols => "cols",
            Field::Conns => "conns",
            Field::Contents => "contents",
            Field::Count => "count",
            Field::Delta => "delta",
            Field::Do => "do",
            Field::End => "end",
            Field::From => "from",
            Field::Guest => "guest",
            Field::Id => "id",
            Field::Insertion => "i",
            Field::Inserter => "a",
            Field::Interval => "interval",
            Field::Intervals => "intervals",
            Field::Key => "key",
            Field::Kind => "type",
            Field::Label => "label",
            Field::Line => "line",
            Field::Marker => "marker",
            Field::Max => "max",
            Field::Message => "message",
            Field::Min => "min",
            Field::MinimumSequenceNumber => "minimumSequenceNumber",
            Field::Op => "op",
            Field::Ops => "ops",
            Field::Other => "other",
            Field::Pairs => "pairs",
            Field::Pending => "pending",
            Field::Pos1 => "pos1",
            Field::Pos2 => "pos2",
            Field::Props => "props",
            Field::ReferenceSequenceNumber => "referenceSequenceNumber",
            Field::RefType => "refType",
            Field::Removals => "r",
            Field::Row => "row",
            Field::Rows => "rows",
            Field::RunLength => "n",
            Field::Seg => "seg",
            Field::SegmentMarker => "m",
            Field::SegmentProps => "p",
            Field::SegmentText => "t",
            Field::Seq => "seq",
            Field::SequenceNumber => "sequenceNumber",
            Field::Skipped => "skipped",
            Field::Start => "start",
            Field::Summary => "summary",
            Field::Target => "target",
            Field::Text => "text",
            Field::Value => "value",
            Field::Version => "version",
        }
    }
}

impl fmt::Display for Field {
    ghost use Rattle.std.specs.Prelude.{Some};
    ghost use Rattle.ft_json.specs.Fields.{field_name};

    ghost output = { λ field. Some (field_name field) };

    fn fmt<W: fmt::Write>(&self, f: &mut fmt::Formatter<W>) -> fmt::Result {
        let name = self.name();
        write!(f, "{name}")
    }
}
