//! The law of the canonical text.
ghost use Rattle.std.specs.Prelude.{◌≤◌, ℕ, List, length};
ghost use Rattle.sac_lex.specs.Cut.{Lexeme, IsTokenList};
ghost use Rattle.core_source_laws.specs.printing.Again.{ReadAgain, NestedAgain};
ghost use Rattle.core_source_laws.specs.printing.Tokens.{HasTokens};

/// A law: where the tokens of a source have a tree in the grammar, the canonical text of the tree has tokens, and these have an equal tree, aside from sites.
/// Where the source keeps the limits on nesting, its canonical text keeps them.
/// The limit on the number of tokens is left aside; where the canonical text keeps it, those tokens are the ones that the lexer gives.
pub fn canonical_texts_are_read()
    ensures read_again { ReadAgain }
    ensures nested_again { NestedAgain }
    ensures few_tokens { (source : List ℕ) (tokens : List Lexeme) → HasTokens source tokens → length tokens ≤ 200001 → IsTokenList source tokens }
{}
