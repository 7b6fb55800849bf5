//! Laws of what is due.
ghost use Rattle.std.specs.Prelude.{◌≡◌, ◌⊎◌, ℕ, List, Option, Some};
ghost use Rattle.sac_base.specs.declared.site.Site.{Site as Place};
ghost use Rattle.sac_due.specs.Due.{Ending, IsDue};
ghost use Rattle.sac_due.specs.Report.{Numbers};
ghost use Rattle.sac_due.specs.Source.{IsTooDeep};

use sac_grammar::parser_is_exact;
use sac_lex::one_reading;

/// For the same numbers of the report one status is due at most, and one text, but where the source is nested too deep: then the site of the refusal is
/// one of several.
pub fn one_due()
    ensures { (words : List (List ℕ)) (source input : Option (List ℕ)) (numbers : Numbers) (x y : Ending) →
        IsDue words source input numbers x → IsDue words source input numbers y →
        (x ≡ y) ⊎ (x.status ≡ y.status) × ((bytes : List ℕ) × (site : Place) × (source ≡ Some bytes) × IsTooDeep bytes site) }
{
    one_reading();
    parser_is_exact();
}
