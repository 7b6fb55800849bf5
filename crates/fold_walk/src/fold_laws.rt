//! Laws: pairs of parted loops that are folded by their plans are folded with new variables.

ghost use Rattle.fold_walk.specs.fold_laws.Laws.{PlansAreFresh, FoldedFunctionsAreFresh};

/// Law: where a consumer has the parts of its plan, with copies of the producer's parts in their bodies, a pair is folded with new variables; and many such
/// folds of a function of a well-formed core are such folds.
pub fn plans_are_fresh()
    ensures pairs { PlansAreFresh }
    ensures functions { FoldedFunctionsAreFresh }
{}
