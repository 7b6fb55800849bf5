//! Laws of phases in code with marks: cells that reach no mark stand alone.

ghost use Rattle.phase_loop_laws.specs.reached_marks.Statements.{MeaningStays, SpendingStays, ClearCallsMatch, ClearCallsSpend};
ghost use Rattle.phase_loop_laws.specs.reached_marks.Statements.{ClearWithCellsStandAlone, ClearPartedCellsStandAlone, ClearLoopsStandAlone, ClearPartedLoopsStandAlone};

/// Law: calls mean and spend the same in code whose marks are turned back into releases. What they spend is said of arrays, where no loop writes over
/// another's.
pub fn removal_keeps_calls()
    ensures meaning { MeaningStays }
    ensures spending { SpendingStays }
{}

/// Law: in well-counted code, calls from which no mark is reached do what they mean, and spend what they spend on arrays.
pub fn clear_calls()
    ensures meaning { ClearCallsMatch }
    ensures spending { ClearCallsSpend }
{}

/// Law: in well-counted code, a cell that reaches no mark is the core's, and takes what it takes on arrays, whatever else there is in the heap.
pub fn clear_cells_stand_alone()
    ensures with_loops { ClearWithCellsStandAlone }
    ensures parted_loops { ClearPartedCellsStandAlone }
{}

/// Law: in well-counted code, the cells of a loop that reach no mark stand alone in each heap in which its variables can be read.
pub fn clear_loops_stand_alone()
    ensures with_loops { ClearLoopsStandAlone }
    ensures parted_loops { ClearPartedLoopsStandAlone }
{}
