//! Laws: a loop over a product of frames is a loop of loops.

ghost use Rattle.core_loops.specs.merge.Laws.{ProductsOfFrames, NestsMayBeMerged};

/// Law: the members of a frame followed by another are those of the first, each with those of the second, in row-major order.
pub fn products_of_frames()
    ensures { ProductsOfFrames }
{}

/// Law: a loop over a frame followed by another, with the cells of inner loops, gives what the loop of these inner loops gives, the first fault
/// included.
pub fn nests_may_be_merged()
    ensures { NestsMayBeMerged }
{}
