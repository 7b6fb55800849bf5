//! What holds of token lists and refusals, whatever the source.

ghost use Rattle.std.specs.Prelude.{◌≡◌, ℕ, List};
ghost use Rattle.sac_lex.specs.declared.token.LexCode.{LexCode};
ghost use Rattle.sac_base.specs.declared.site.Site.{Site};
ghost use Rattle.sac_lex.specs.Cut.{Lexeme, IsTokenList, IsRefusal};

/// A law: a source has one token list or one first refusal, and not both.
pub fn one_reading()
    ensures tokens { (source : List ℕ) (ts us : List Lexeme) → IsTokenList source ts → IsTokenList source us → ts ≡ us }
    ensures refusal { (source : List ℕ) (c d : LexCode) (s t : Site) → IsRefusal source c s → IsRefusal source d t → (c ≡ d) × (s ≡ t) }
    ensures exclusive { (source : List ℕ) (ts : List Lexeme) (code : LexCode) (site : Site) → IsTokenList source ts → IsRefusal source code site → ⊥ }
{}
