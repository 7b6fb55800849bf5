//! Laws of folding: what a consumer selects from a producer is the producer's cell.

ghost use Rattle.core_loops.specs.folds.Laws.{CellsAreSelected, SelectionsAreCells, PartsMayBeCut};

/// Law: a parted genarray or modarray whose cells are scalars and never fault has a value, and a selection from it at an index of the frame is the
/// cell there.
pub fn cells_are_selected()
    ensures { CellsAreSelected }
{}

/// Law: where the binding of a producer was passed on the way, a selection from it at an index in its frame, inside a consumer, is the bindings of
/// the part that holds the index, with other variables.
pub fn selections_are_cells()
    ensures { SelectionsAreCells }
{}

/// Law: a part may be cut into pieces with its site and its cells that together have its indices.
pub fn parts_may_be_cut()
    ensures { PartsMayBeCut }
{}
