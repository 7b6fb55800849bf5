ghost use Rattle.std.specs.Prelude.{◌≡◌, ◌↔◌, [], ◌∷◌, Ok, Some, List, ℕ};
ghost use Rattle.sac_base.specs.Arrays.{ArrayValue, IsArray, IsWellTyped};
ghost use Rattle.data_text.specs.Lines.{LineValue, line_at};
ghost use Rattle.data_text.specs.Pieces.{pieces};
ghost use Rattle.data_text.specs.Printed.{array_line};
ghost use Rattle.data_text.specs.Spelled.{HasForm};
ghost use Rattle.data_text.specs.Texts.{text_value};

/// A law: a line is read as what it spells, and it is read only where it has the form of a line.
pub fn read_is_spelled()
    ensures { (line : List ℕ) (v : LineValue) → (line_at (pieces line) ≡ Some v) ↔ HasForm line v }
{}

/// A law: what is printed of an array is read back as that array.
#[tactic(auto, using(crate::proofs::ReadBack::read_back))]
pub fn printed_is_read()
    ensures { (a : ArrayValue) → IsArray a → IsWellTyped a → text_value (array_line a) (a.base ∷ []) ≡ Ok (a ∷ []) }
{}
