// The table of a phase beside the phase machine, as laws over every table in which the rule holds.
ghost use Rattle.count_table.specs.Laws.{OpensAtOpening, ReadingStepsAreEvents, HoldsAtOpening, HoldsStepsAreEvents};

/// A law. A table that was just opened stands for the machine's opening state. Wherever a table in which the rule holds
/// stands for a state, each kind of step on it is an event of the machine, or leaves the state as it is.
pub fn steps_are_events<T>()
    ensures opening { OpensAtOpening T }
    ensures steps { ReadingStepsAreEvents T }
{}

/// A law, of a table that no chunk is drawn from. It stands for what a state of the machine says of buffers: when it was
/// just opened for the opening state, and then each kind of step on it is an event of the machine, or leaves the state as
/// it is. What the machine draws, writes and stops does not change what the table stands for.
pub fn holds_are_events<T>()
    ensures opening { HoldsAtOpening T }
    ensures steps { HoldsStepsAreEvents T }
{}
