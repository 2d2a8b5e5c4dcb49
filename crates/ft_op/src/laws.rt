//! Laws, each the contract of a function that does nothing.

ghost use Rattle.ft_op.specs.Laws.{GridOpsReadBack, GridOpsTellApart, TextOpsReadBack, TextOpsTellApart};

/// A well-formed operation of the text is read back from what it is written as, and no other has the
/// same text.
pub fn text_operations_are_read_back()
    ensures read_back { TextOpsReadBack }
    ensures tell_apart { TextOpsTellApart }
{}

/// A well-formed operation of the grid is read back from what it is written as, and no other has the
/// same text.
pub fn grid_operations_are_read_back()
    ensures read_back { GridOpsReadBack }
    ensures tell_apart { GridOpsTellApart }
{}
