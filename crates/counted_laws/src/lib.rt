//! Laws of counted code: a run of the machine with a heap ends as its core does, leaves no buffer, and gives back each buffer that it took.
#![tactic(auto)]

pub mod mark_places;
pub mod mark_removal;
pub mod placing;

ghost use Rattle.counted_laws.specs.Statements.{SameOutcome, RunsLeaveNothing, RunsGiveAllBack, CostsAreEven};

/// Law: well-counted code without marks has the outcome of its core, and at the end of its run no buffer is live.
pub fn outcome_of_the_core()
    ensures same { SameOutcome }
    ensures nothing_left { RunsLeaveNothing }
{}

/// Law: a run of well-counted code without marks that ends without a fault gives back as many buffers as it took; so the two numbers of each run's
/// cost are equal.
pub fn taken_is_given()
    ensures heap { RunsGiveAllBack }
    ensures cost { CostsAreEven }
{}
