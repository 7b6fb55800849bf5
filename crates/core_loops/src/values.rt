//! Laws: the values of a well-formed core are arrays.

ghost use Rattle.core_loops.specs.values.Laws.{ValuesAreArrays};

/// Law: in a well-formed core each right side gives arrays with as many cells as their shapes say, where the variables and calls do.
pub fn values_are_arrays()
    ensures { ValuesAreArrays }
{}
