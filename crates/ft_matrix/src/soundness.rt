//! Which tables meet the conditions of the calls.

ghost use Rattle.ft_matrix.specs.ClientGrids.{ClientGridsMeetConditions};

/// The table of each client does: of one that its steps made, or that keeps one which they made. So the calls of a shared table
/// may follow one another as the steps of a client do. Each says that it holds the document of the client's next step then,
/// which meets them again.
pub fn client_grids()
    ensures { ClientGridsMeetConditions }
{}
