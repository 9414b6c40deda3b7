//! Laws of the definitions on rows of arcs, each the contract of a function that does nothing.
ghost use Rattle.csr_columns.specs.Laws.{RowHoldsTargets, RowIsDegree, ListingGivesArcs, ListingGivesValues};

/// What the row of a node holds.
pub fn rows()
    ensures targets { RowHoldsTargets }
    ensures degree { RowIsDegree }
{}

/// The rows of arcs in order, one after another, are the arcs, and so are the values beside them.
pub fn listing()
    ensures arcs { ListingGivesArcs }
    ensures values { ListingGivesValues }
{}
