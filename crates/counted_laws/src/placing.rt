//! Where references are kept and released, as a function on terms, and the law that the code that it gives is well counted and prompt.

ghost use Rattle.counted_laws.specs.placing.Statements.{PlacedIsCounted, PlacedIsPrompt, PlacedIsUnmarked, PlacedIsTheCore};

/// Law: a well-formed core with the steps that its references need is well counted, prompt and unmarked, and without these steps it is the core.
pub fn placing_is_right()
    ensures counted { PlacedIsCounted }
    ensures prompt { PlacedIsPrompt }
    ensures unmarked { PlacedIsUnmarked }
    ensures same { PlacedIsTheCore }
{}
