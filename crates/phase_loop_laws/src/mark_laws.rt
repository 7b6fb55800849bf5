//! Laws of marked loops: a run whose loops write over arrays ends as its core does, leaves no buffer, and gives back each buffer that it took.

ghost use Rattle.phase_loop_laws.specs.mark_laws.Statements.{OwnElementsAreEnough, SameOutcome, RunsLeaveNothing, RunsGiveAllBack, CostsAreEven, MarkingKeepsTheOutcome};

/// Law: code that reads of an array its own element alone means the same whatever other elements the array has.
pub fn own_elements_are_enough()
    ensures { OwnElementsAreEnough }
{}

/// Law: well-counted and well-marked code has the outcome of its core on arguments that are arrays, and at the end of its run no buffer is live.
pub fn outcome_of_the_core()
    ensures same { SameOutcome }
    ensures nothing_left { RunsLeaveNothing }
{}

/// Law: a run of well-counted and well-marked code on arguments that are arrays, which ends without a fault, gives back as many buffers as it took; so
/// the two numbers of each run's cost are equal.
pub fn taken_is_given()
    ensures heap { RunsGiveAllBack }
    ensures cost { CostsAreEven }
{}

/// Law: well-counted code whose loops are marked, each that has candidates with the one of the least number, has the outcome that it had without marks,
/// on arguments that are arrays.
pub fn marking_keeps_the_outcome()
    ensures { MarkingKeepsTheOutcome }
{}
