//! Laws: a core with some of its functions once more, for narrower types of parameters.

ghost use Rattle.specialise.specs.groups.Laws.{SpecialisedCoresKeepOutcomes, SpecialisedCoresAreWellFormed, SpecialisedGroupsGiveTheSameShapes};

/// Law: where functions are put into a core once more for known shapes of parameters, its outcome stays on arguments that both main functions take, or
/// both do not.
pub fn specialised_outcomes()
    ensures { SpecialisedCoresKeepOutcomes }
{}

/// Law: such a core is well formed where the first is.
pub fn specialised_forms()
    ensures { SpecialisedCoresAreWellFormed }
{}

/// Law: the known shapes of the results of a group stay.
pub fn specialised_results()
    ensures { SpecialisedGroupsGiveTheSameShapes }
{}
