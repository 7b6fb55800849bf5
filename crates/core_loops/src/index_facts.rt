//! Laws: what is known of variables beside the index of a part, and bodies that never fault.

ghost use Rattle.core_loops.specs.index_facts.Laws.{IndexFactsAreSound, TotalBlocksHaveValues};

/// Law: the value of a right side is beside the index as its index fact says.
pub fn index_facts_are_sound()
    ensures { IndexFactsAreSound }
{}

/// Law: a block that is total on a grid has a value at each member of the grid, in each environment that has the known shapes, literal values, bases
/// and indices.
pub fn total_blocks_have_values()
    ensures { TotalBlocksHaveValues }
{}
