//! Sets of names, and what names are bound to.

ghost use Rattle.std.specs.Prelude.{◌≡◌, [], ◌∷◌, not, OnOk, IfOk};
ghost use Rattle.check_rules.specs.Accepted.{with_names, bind as bind_name, base_of as base_known};
ghost use Rattle.check_rules.specs.Tables.{has, entered};

use indexmap::{IndexMap, IndexSet};
use sac_base::{Base, Memory, Name};

/// Adds a name to a set, and says whether it is new there.
pub fn note<'a>(names: &mut IndexSet<&'a str>, name: &'a Name) -> Result<bool, Memory>
    ensures added { IfOk result (λ added. added ≡ not (has names.old name.now)) }
    ensures names { OnOk result (has names.new ≡ with_names (name.now ∷ []) (has names.old)) }
{
    let added = names.insert(name.as_str())?;
    Ok(added)
}

/// Binds a name to a value of this base; its first binding counts.
pub fn bind<'a>(
    known: &mut IndexMap<&'a str, Option<Base>>,
    name: &'a Name,
    base: Option<Base>,
) -> Result<(), Memory>
    ensures { OnOk result (entered known.new ≡ bind_name name.now base (entered known.old)) }
{
    let text = name.as_str();
    if known.get(text).is_none() {
        known.insert(text, base)?;
    }
    Ok(())
}

/// The base of a name's first binding, where it is there and tells one.
pub fn base_of(known: &IndexMap<&str, Option<Base>>, name: &Name) -> Option<Base>
    ensures { result ≡ base_known (entered known.now) name.now }
{
    match known.get(name.as_str()) {
        None => None,
        Some(base) => *base,
    }
}
