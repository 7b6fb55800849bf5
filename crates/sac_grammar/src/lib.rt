//! What one token of lookahead decides, for any grammar and for that of the language.
#![tactic(auto)]

ghost use Rattle.std.specs.Prelude.{◌≡◌, ◌<◌, ℕ, true, List, [], ◌∷◌, ◌++◌};
ghost use Rattle.sac_base.specs.declared.site.Site.{Site};
ghost use Rattle.sac_ast.specs.Texts.{Lexeme, is_end};
ghost use Rattle.sac_ast.specs.Grammar.{Nonterminal, Tree, IsPhrase, program};
ghost use Rattle.sac_ast.specs.Tree.{ProgramTree};
ghost use Rattle.sac_ast.specs.Heights.{open_behind, IsTreeOf};
ghost use Rattle.sac_ast.specs.Refusals.{Starts, IsStuckAt, IsTooDeepAt};
ghost use Rattle.sac_grammar.specs.Verdicts.{IsStuckBefore, IsTallBefore};
ghost use Rattle.sac_grammar.specs.Verdicts.{StuckTokensAreRefused, OpenBracketsAreRefused, HighPhrasesAreRefused, TokensBehindAreRefused};
ghost use Rattle.sac_grammar.specs.Limits.{High};
ghost use Rattle.sac_grammar.specs.Parsing.{Found, Lost, TooTall};

/// Tokens have at most one tree, and a parser with one token of lookahead is exact:
/// what it reads to the end is the tree; where it is stuck, the tokens before begin a phrase and none goes on with the next one;
/// where it gives up for the height, they begin a phrase, and each that goes on with the next one is too high.
pub fn parser_is_exact()
    ensures one_tree { (k : Nonterminal) (ts : List Lexeme) (v w : Tree k) → IsPhrase k ts v → IsPhrase k ts w → v ≡ w }
    ensures found { (k : Nonterminal) (ts : List Lexeme) (v : Tree k) → Found k ts v [] → IsPhrase k ts v }
    ensures lost { (k : Nonterminal) (ts r : List Lexeme) → Lost k ts r → IsStuckBefore k ts r }
    ensures tall { (d : ℕ) (k : Nonterminal) (ts r : List Lexeme) → TooTall d k ts r → IsTallBefore d k ts r }
{}

/// What a run over the tokens of a program says of their refusal. `read` are the tokens as far as the limit on brackets allows it.
pub fn refusals()
    // Stuck at a token: it is the fault.
    ensures stuck { StuckTokensAreRefused }
    // Stuck behind the last token that was read, with which too many brackets are open: the tokens are nested too deep there.
    ensures deep { OpenBracketsAreRefused }
    // Too high with the next token, with which some program goes on: they are nested too deep there.
    ensures tall { HighPhrasesAreRefused }
    // A token behind a whole program: it is the fault.
    ensures behind { TokensBehindAreRefused }
    // Stuck behind the end token: that does not happen.
    ensures ended { (u : List Lexeme) (e : Lexeme) → is_end e.text ≡ true → Lost program (u ++ (e ∷ [])) [] → ⊥ }
{}

/// Where tokens are refused they have no tree within the limits on nesting.
pub fn refused_tokens_have_no_tree()
    ensures stuck { (ts : List Lexeme) (site : Site) (p : ProgramTree) → IsStuckAt ts site → IsTreeOf ts p → ⊥ }
    ensures deep { (ts : List Lexeme) (site : Site) (p : ProgramTree) → IsTooDeepAt ts site → IsTreeOf ts p → ⊥ }
{}
