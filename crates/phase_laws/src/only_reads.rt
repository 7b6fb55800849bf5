//! What the machine does in code that reads arrays in buffers and does nothing else with them.

ghost use Rattle.phase_laws.specs.only_reads.Reads.{BlocksOnlyRead, PlainCallsInPlace, RightSidesOnlyRead};

/// Law: a block that only reads, and takes no buffer, does on the machine what its core means, and leaves the heap as it was. So does a right side, and
/// so do the calls of functions without loops over cells that call such functions alone, with words and short vectors.
pub fn reading_in_place()
    ensures blocks { BlocksOnlyRead }
    ensures right_sides { RightSidesOnlyRead }
    ensures calls { PlainCallsInPlace }
{}
