//! Tests of bindings, one after another.

ghost use Rattle.std.specs.Prelude.{◌≡◌, ℕ, ◌<◌, false, true, IfSome, IfNone, Some, length, map, slice_get};
ghost use Rattle.core_ir.specs.Terms.{LetTerm};
ghost use Rattle.core_ir.specs.Uses.{AvoidsRight};
ghost use Rattle.core_ir.specs.View.{let_term};
ghost use Rattle.binding_users.specs.Users.{IsSoleUser, OthersAvoid, UsesAt};

use core_ir::{Let, Var};
use core_uses::{avoids_all, avoids_right};

/// Whether the binding at a place uses a variable, if there is one.
pub fn uses_at(x: Var, lets: &[Let], place: usize) -> bool
    ensures uses { result ≡ true → UsesAt x (map let_term lets.now) place }
    ensures avoids { result ≡ false → (l : LetTerm) → slice_get (map let_term lets.now) place ≡ Some l → AvoidsRight x l.right }
{
    match lets.get(place) {
        Some(binding) => !avoids_right(x, &binding.right),
        None => false,
    }
}

/// This place, if the binding there uses a variable and the results do not. No other one uses it.
pub fn user_at(x: Var, lets: &[Let], results: &[Var], place: usize) -> Option<usize>
    requires { OthersAvoid x (map let_term lets.now) place }
    ensures some { IfSome result (λ place. IsSoleUser x (map let_term lets.now) results.now place) }
    ensures inside { IfSome result (λ place. place < length lets.now) }
    ensures none { IfNone result ((place : ℕ) → IsSoleUser x (map let_term lets.now) results.now place → ⊥) }
{
    if uses_at(x, lets, place) && avoids_all(x, results) {
        Some(place)
    } else {
        None
    }
}

/// The place of the one binding that uses a variable, if the results do not, by a look at each binding.
pub fn found_user(x: Var, lets: &[Let], results: &[Var]) -> Option<usize>
    ensures some { IfSome result (λ place. IsSoleUser x (map let_term lets.now) results.now place) }
    ensures inside { IfSome result (λ place. place < length lets.now) }
    ensures none { IfNone result ((place : ℕ) → IsSoleUser x (map let_term lets.now) results.now place → ⊥) }
{
    if !avoids_all(x, results) {
        return None;
    }
    let mut found = None;
    for place in 0..lets.len() {
        if !avoids_right(x, &lets[place].right) {
            if found.is_some() {
                return None;
            }
            found = Some(place);
        }
    }
    found
}
