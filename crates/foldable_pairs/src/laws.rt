ghost use Rattle.foldable_pairs.specs.Statements.{HoldersAreHeld, PlansTake, PairsAreBoth};

/// Laws: what the numbers of a plan's pieces name, that a consumer with a plan takes from the producer, and what more makes a pair foldable.
pub fn plans_of_pairs()
    ensures holders { HoldersAreHeld }
    ensures plans { PlansTake }
    ensures pairs { PairsAreBoth }
{}
