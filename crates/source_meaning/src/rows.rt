//! Programs whose meaning is worked out.

ghost use Rattle.source_meaning.specs.Rows.{WorkedPrograms};

/// What some programs come to, computed from the definition: a program for each kind of expression and statement, and for each fault.
pub fn worked_programs()
    ensures { WorkedPrograms }
{}
