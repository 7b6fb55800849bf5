//! Laws of loops over cells: in well-counted code without marks, what a run spends is a function of arrays, and a cell depends on no more of a heap
//! than the arrays of its variables; so the cells of a phase may be run in chunks.
#![tactic(auto)]

pub mod only_reads;

ghost use Rattle.phase_laws.specs.Statements.{BlocksSpend, CallsDoWhatTheyMean, CallsSpendAsOnArrays, RunsSpend, WithCellsStandAlone};
ghost use Rattle.phase_laws.specs.Statements.{PartedCellsStandAlone, CellsAreAlikeElsewhere, CellsInOrderLeave, CellsInOrderTell, BlocksAreBlind};
ghost use Rattle.phase_laws.specs.Statements.{RightSidesAreBlind, GeneratorsAreBlind, PartsAreBlind, CellsAreBlind, CallsOfEachLevelAreBlind};
ghost use Rattle.phase_laws.specs.Statements.{BlocksGrow, GeneratorsGrow, PartsGrow, OneCellGrows, CellsGrow, CallsOfEachLevelGrow, ChunksRunAsCells};
ghost use Rattle.phase_laws.specs.Statements.{ChunksLeave, HalvesAreBeside, PiecesAreTheWhole, PhasedOutcomesAreTheSame, PhasedCostsAreTheSame};
ghost use Rattle.phase_laws.specs.Statements.{PhasesAreTheSame, PhasedRunsLeaveNothing, UncutBlocks, UncutRightSides, UncutFunctions, UncutRuns};
ghost use Rattle.phase_laws.specs.Statements.{PartialsMerge, FoldsOfPartials, AsManyCells, ResultsInParts};

/// Law: a block spends on a heap what it spends on arrays, from each heap in which its references are counted and its variables can be read.
pub fn spending_of_blocks()
    ensures { BlocksSpend }
{}

/// Law: at each level, calls do what they mean and spend what they spend on arrays.
pub fn spending_of_calls()
    ensures meaning { CallsDoWhatTheyMean }
    ensures spending { CallsSpendAsOnArrays }
{}

/// Law: a whole run takes and gives back as many buffers as it spends on arrays, reuses none, and has the phases that it spends; with a fault it has
/// those up to the fault.
pub fn spending_of_runs()
    ensures { RunsSpend }
{}

/// Law: from a heap on in which its variables can be read, a with-loop's cells are the core's, whatever else there is in the heap.
pub fn cells_of_with_loops()
    ensures { WithCellsStandAlone }
{}

/// Law: from a heap on in which its variables can be read, a parted loop's cells are the core's, whatever else there is in the heap.
pub fn cells_of_parted_loops()
    ensures { PartedCellsStandAlone }
{}

/// Law: a cell that stands alone is the same in another heap with the same buffers, however many places there are.
pub fn a_cell_elsewhere()
    ensures { CellsAreAlikeElsewhere }
{}

/// Law: cells that stand alone, run one after another with nothing written between them, are the cells each run from the first heap, up to the first
/// fault. They take as many buffers as all of them together, and leave the heap unchanged.
pub fn cells_one_after_another()
    ensures leaves { CellsInOrderLeave }
    ensures told { CellsInOrderTell }
{}

/// Law: the numbers of a heap have no say in what blocks, right sides, cells and calls do.
pub fn numbers_have_no_say()
    ensures blocks { BlocksAreBlind }
    ensures right_sides { RightSidesAreBlind }
    ensures generators { GeneratorsAreBlind }
    ensures parts { PartsAreBlind }
    ensures cells { CellsAreBlind }
    ensures calls { CallsOfEachLevelAreBlind }
{}

/// Law: a heap has one buffer more for each one that was taken, whatever blocks, cells and calls do; those that were given back stay as empty places.
pub fn a_buffer_more_for_each_one_taken()
    ensures blocks { BlocksGrow }
    ensures generators { GeneratorsGrow }
    ensures parts { PartsGrow }
    ensures cell { OneCellGrows }
    ensures cells { CellsGrow }
    ensures calls { CallsOfEachLevelGrow }
{}

/// Law: cells that stand alone may be run in chunks, each from the same heap with numbers of its own. The chunks in two halves come to what all come
/// to, and pieces are the whole list together.
pub fn cells_in_chunks()
    ensures ran { ChunksRunAsCells }
    ensures leaves { ChunksLeave }
    ensures halves { HalvesAreBeside }
    ensures whole { PiecesAreTheWhole }
{}

/// Law: a run whose phases are run in chunks, however they are cut, has the outcome, the cost and the phases of the run on one thread, and leaves no buffer.
pub fn runs_in_phases()
    ensures outcome { PhasedOutcomesAreTheSame }
    ensures cost { PhasedCostsAreTheSame }
    ensures phases { PhasesAreTheSame }
    ensures nothing_left { PhasedRunsLeaveNothing }
{}

/// Law: without a cut, the machine that runs phases is that of counted code, at each level.
pub fn phases_without_a_cut()
    ensures blocks { UncutBlocks }
    ensures right_sides { UncutRightSides }
    ensures functions { UncutFunctions }
    ensures runs { UncutRuns }
{}

/// Law: a fold may be made of the partial values of its chunks. The partial value of two lists of cells is merged of theirs, and a fold combines its
/// neutral value with the partial value of all cells.
pub fn folds_in_parts()
    ensures parts { PartialsMerge }
    ensures whole { FoldsOfPartials }
{}

/// Law: there are as many cells as indices, so what is made of indices with their cells is made part by part.
pub fn results_in_parts()
    ensures as_many { AsManyCells }
    ensures parts { ResultsInParts }
{}
