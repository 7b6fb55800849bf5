//! Laws of parallel phases: what the workers of a phase compute is what the machine of counted code does in order.
#![tactic(auto)]

pub mod mark_laws;
pub mod over_phases;
pub mod reached_marks;

ghost use Rattle.phase_loop_laws.specs.Laws.{CellsComeToValues, CellsComeToFault, PhasesComeToResults, PhasesComeToFault, PlacesCostTogether};
ghost use Rattle.phase_loop_laws.specs.Laws.{LoopsAreMade, PartedLoopsAreMade, FoldsAreMade, PhasesEndAsMade, LoopCellsHaveForm, PartCellsHaveForm};
ghost use Rattle.phase_loop_laws.specs.Laws.{LoopsStandAlone, PartedLoopsStandAlone};

/// Law: from a heap on in which they stand alone, the machine's cells come in order to their values or to their first fault. The heap's numbers may be any.
pub fn cells_in_order()
    ensures values { CellsComeToValues }
    ensures fault { CellsComeToFault }
{}

/// Law: a phase whose cells stand alone comes to the result of their values, or to their first fault.
pub fn phases_in_order()
    ensures values { PhasesComeToResults }
    ensures fault { PhasesComeToFault }
{}

/// Law: the places of all indices cost together what their cells take.
pub fn costs_of_places()
    ensures { PlacesCostTogether }
{}

/// Law: the elements that workers put one after another are those of the array that is made of all cells. Where an index has no cell, a with-loop
/// has the elements behind it, and a parted loop has none.
pub fn arrays_of_workers()
    ensures with_loops { LoopsAreMade }
    ensures parted_loops { PartedLoopsAreMade }
{}

/// Law: the elements that workers combine with those of a neutral array are those of the fold of all cells, where the cells that are there have the
/// neutral one's base and shape.
pub fn folds_of_workers()
    ensures { FoldsAreMade }
{}

/// Law: a phase whose cells stand alone comes to what its workers have made of them.
pub fn phases_of_workers()
    ensures { PhasesEndAsMade }
{}

/// Law: the cells of a loop that are there have the loop's form.
pub fn forms_of_cells()
    ensures with_loops { LoopCellsHaveForm }
    ensures parted_loops { PartCellsHaveForm }
{}

/// Law: in well-counted code without marks, the cells of a loop stand alone in each heap in which its variables can be read.
pub fn loops_stand_alone()
    ensures with_loops { LoopsStandAlone }
    ensures parted_loops { PartedLoopsStandAlone }
{}
