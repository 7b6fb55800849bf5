ghost use Rattle.generator_sets.specs.Statements.{PiecesAreTheSet, PiecesAreDisjoint, SomeCount, OneCount};

/// Law: where pieces split a set, some piece has a vector exactly where the set has it, and no two pieces share one.
pub fn pieces_of_a_set()
    ensures members { PiecesAreTheSet }
    ensures disjoint { PiecesAreDisjoint }
{}

/// Law: a frame and generators have a greatest period and a canonical count, and only one of each.
pub fn canonical_count()
    ensures some { SomeCount }
    ensures one { OneCount }
{}
