//! A summary keeps what later messages need. Elements that were removed at or below the minimum are
//! left out of it, and older insertions are written as the one that everybody sees.

ghost use Rattle.ft_laws_agreement.specs.Trimming.{AgreedIsConsistent, StaysConsistent, TrimmedIsConsistent, TrimmedShowsTheSame};

/// In a document of messages alone nothing is pending, each element has a name of its own, each end
/// of an interval is detached or on an unremoved element, and no cell holds null.
pub fn consistent_documents()
    ensures agreed { AgreedIsConsistent }
    ensures stays { StaysConsistent }
    ensures trimmed { TrimmedIsConsistent }
{}

/// Such a document and its trimmed form show the same after any further messages whose minimums never
/// fall and whose operations refer to numbers at or above the minimum before them.
pub fn trimmed_documents()
    ensures shows_the_same { TrimmedShowsTheSame }
{}
