//! Laws of normal with-loops: a parted loop in the place of a with-loop.

ghost use Rattle.core_loops.specs.norm.Laws.{WithLoopsAreParted, PartitionsFit, GapsFit};

/// Law: a parted loop whose parts have at each index what the with-loop has there gives the with-loop's value, faults and their sites included.
pub fn with_loops_are_parted()
    ensures { WithLoopsAreParted }
{}

/// Law: where the parts of a partition have a vector once, and each has the cells of its first generator, the part that has the vector has what the
/// with-loop has there.
pub fn partitions_fit()
    ensures { PartitionsFit }
{}

/// Law: the same of a vector that no part and no generator has, where nothing stands.
pub fn gaps_fit()
    ensures { GapsFit }
{}
