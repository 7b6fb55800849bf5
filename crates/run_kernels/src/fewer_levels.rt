//! How far calls may go on has no say in how plain code ends.

ghost use Rattle.run_kernels.specs.Levels.{FewerLevels};

/// Law: a run of plain code with fewer levels of calls left ends as one with more levels does, unless it ends for want of levels, with the fault F10.
pub fn fewer_levels_end_alike()
    ensures { FewerLevels }
{}
