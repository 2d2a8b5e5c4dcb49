//! Laws of what is told from nothing, each a clause of a function without code.

ghost use Rattle.ft_change_lines.specs.Laws.{FromNothingLeads};

/// An editor that shows nothing, and applies what leads from nothing to what a client shows, shows that.
pub fn from_nothing()
    ensures leads { FromNothingLeads }
{}
