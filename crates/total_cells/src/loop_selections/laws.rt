ghost use Rattle.total_cells.specs.loop_selections.Statements.{SelectingIsDecided};

/// Law: the test of the walk is true exactly where a block uses the variable in selections from it alone, and has no with-loop and no parted loop.
pub fn selecting()
    ensures { SelectingIsDecided }
{}
