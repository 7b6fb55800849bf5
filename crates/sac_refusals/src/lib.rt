//! Where a refusal of a token list ought to stand: at the first token with which no program within the limits on nesting starts.
#![tactic(auto)]

ghost use Rattle.std.specs.Prelude.{◌≡◌, List};
ghost use Rattle.sac_base.specs.declared.site.Site.{Site};
ghost use Rattle.sac_ast.specs.Texts.{Lexeme};
ghost use Rattle.sac_ast.specs.Tree.{ProgramTree};
ghost use Rattle.sac_ast.specs.Heights.{IsTreeOf};
ghost use Rattle.sac_ast.specs.Refusals.{IsStuckAt, IsTooDeepAt};
ghost use Rattle.sac_refusals.specs.Stops.{IsFirstStop, IsFirstStuck, IsFirstTooDeep};
ghost use Rattle.sac_refusals.specs.Words.{WordsOpenBrackets, CrowdedTokensStop, CrowdedTokensAreRefused};

/// Laws of the first token with which no program within the limits starts: there is one at most, none where the tokens have a tree, and a refusal
/// there meets the bounds that the parser keeps.
pub fn first_stops()
    ensures one { (ts : List Lexeme) (s t : Site) → IsFirstStop ts s → IsFirstStop ts t → s ≡ t }
    ensures exclusive { (ts : List Lexeme) (s t : Site) → IsFirstStuck ts s → IsFirstTooDeep ts t → ⊥ }
    ensures stuck { (ts : List Lexeme) (s : Site) → IsFirstStuck ts s → IsStuckAt ts s }
    ensures deep { (ts : List Lexeme) (s : Site) → IsFirstTooDeep ts s → IsTooDeepAt ts s }
    ensures no_tree { (ts : List Lexeme) (s : Site) (p : ProgramTree) → IsFirstStop ts s → IsTreeOf ts p → ⊥ }
{}

/// Laws of words behind which a bracket opens: it does in each program, and no program within the limits starts with such a word where
/// as many brackets as may be are open.
pub fn words_open_brackets()
    ensures opened { WordsOpenBrackets }
    ensures crowded { CrowdedTokensStop }
    // The parser's refusal where it is stuck behind such a token, the last one that it reads.
    ensures refused { CrowdedTokensAreRefused }
{}
