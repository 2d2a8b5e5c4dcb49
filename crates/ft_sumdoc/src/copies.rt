//! Copies of what summaries and views hold, and whether two are equal.

ghost use Rattle.std.specs.Prelude.{◌≡◌, IfOk};

use crate::summary::{CellRec, Ends2, IntervalRec, Mark, RunRec, Seg, SegRec, SumDoc};
use ft_base::moved::both;
use ft_base::{Datum, OutOfMemory};

// Copies of three values.
fn copy_three<A: Datum, B: Datum, C: Datum>(
    first: &A,
    second: &B,
    third: &C,
) -> Result<(A, B, C), OutOfMemory>
    ensures { IfOk result (λ copies. copies ≡ (first.now, second.now, third.now)) }
{
    let first = first.copy()?;
    let second = second.copy()?;
    let third = third.copy()?;
    Ok((first, second, third))
}

impl Datum for Seg {
    fn copy(&self) -> Result<Seg, OutOfMemory> {
        match self {
            Seg::Chars { text } => Ok(Seg::Chars { text: text.copy()? }),
            Seg::Marker { ref_type } => Ok(Seg::Marker {
                ref_type: *ref_type,
            }),
        }
    }

    fn same(&self, other: &Seg) -> bool {
        match (self, other) {
            (Seg::Chars { text: mine }, Seg::Chars { text: theirs }) => mine.same(theirs),
            (Seg::Marker { ref_type: mine }, Seg::Marker { ref_type: theirs }) => mine == theirs,
            (Seg::Chars { .. }, Seg::Marker { .. }) | (Seg::Marker { .. }, Seg::Chars { .. }) =>
                false,
        }
    }
}

impl Datum for Ends2 {
    fn copy(&self) -> Result<Ends2, OutOfMemory> {
        Ok(*self)
    }

    fn same(&self, other: &Ends2) -> bool {
        self == other
    }
}

impl Datum for IntervalRec {
    fn copy(&self) -> Result<IntervalRec, OutOfMemory> {
        let (label, id, props) = copy_three(&self.label, &self.id, &self.props)?;
        Ok(IntervalRec {
            label,
            id,
            ends: self.ends,
            props,
        })
    }

    fn same(&self, other: &IntervalRec) -> bool {
        self.label.same(&other.label)
            && self.id.same(&other.id)
            && self.ends == other.ends
            && self.props.same(&other.props)
    }
}

impl Datum for CellRec {
    fn copy(&self) -> Result<CellRec, OutOfMemory> {
        Ok(CellRec {
            row: self.row,
            col: self.col,
            value: self.value.copy()?,
        })
    }

    fn same(&self, other: &CellRec) -> bool {
        self.row == other.row && self.col == other.col && self.value.same(&other.value)
    }
}

impl Datum for Mark {
    fn copy(&self) -> Result<Mark, OutOfMemory> {
        Ok(*self)
    }

    fn same(&self, other: &Mark) -> bool {
        self == other
    }
}

impl Datum for SegRec {
    fn copy(&self) -> Result<SegRec, OutOfMemory> {
        let (body, props, dels) = copy_three(&self.body, &self.props, &self.dels)?;
        Ok(SegRec {
            body,
            props,
            by: self.by,
            ins: self.ins,
            dels,
        })
    }

    fn same(&self, other: &SegRec) -> bool {
        self.body.same(&other.body)
            && self.props.same(&other.props)
            && self.by == other.by
            && self.ins == other.ins
            && self.dels.same(&other.dels)
    }
}

impl Datum for RunRec {
    fn copy(&self) -> Result<RunRec, OutOfMemory> {
        Ok(RunRec {
            count: self.count,
            ins: self.ins,
            dels: self.dels.copy()?,
        })
    }

    fn same(&self, other: &RunRec) -> bool {
        self.count == other.count && self.ins == other.ins && self.dels.same(&other.dels)
    }
}

impl Datum for SumDoc {
    fn copy(&self) -> Result<SumDoc, OutOfMemory> {
        let elements = copy_three(&self.text, &self.rows, &self.cols);
        let shown = copy_three(&self.conns, &self.intervals, &self.cells);
        let ((text, rows, cols), (conns, intervals, cells)) = both(elements, shown)?;
        Ok(SumDoc {
            seq: self.seq,
            min: self.min,
            skipped: self.skipped,
            other: self.other,
            conns,
            text,
            rows,
            cols,
            intervals,
            cells,
        })
    }

    fn same(&self, other: &SumDoc) -> bool {
        self.seq == other.seq
            && self.min == other.min
            && self.skipped == other.skipped
            && self.other == other.other
            && self.conns.same(&other.conns)
            && self.text.same(&other.text)
            && self.rows.same(&other.rows)
            && self.cols.same(&other.cols)
            && self.intervals.same(&other.intervals)
            && self.cells.same(&other.cells)
    }
}
