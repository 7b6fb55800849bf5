//! Laws: variables that get new numbers one after another are kept apart, and are in order.

ghost use Rattle.dense_variables.specs.numbered.Laws.{NumbersAreInOrder, NumbersKeepApart};

/// Law: the variables of a list that has each once get numbers in order, and these keep them apart from each other and from all variables in scope, which
/// have lower numbers.
pub fn numbers_keep_apart()
    ensures order { NumbersAreInOrder }
    ensures apart { NumbersKeepApart }
{}
