//! Which instance of a name a call takes.

ghost use Rattle.std.specs.Prelude.{◌≡◌, ◌↔◌, All, IsTrue, IsFalse, IsNone, IfSome};
ghost use Rattle.sac_base.specs.Types.{all_have_forms, all_below as are_all_below, all_compatible, is_least, below_others, least_place};
ghost use Rattle.shape_types.specs.Instances.{types_of, IsLeastPlace};

use crate::below;
use sac_base::{ArrayType, Form, has};

/// The types of an instance's parameters.
#[derive(Drop)]
pub struct Instance {
    pub params: Vec<ArrayType>,
}

/// The place of the least instance that fits arguments of these forms: its types contain the forms, and each is below or equal to that of every
/// other instance that fits.
///
/// Of instances any two of which may stand together there is none exactly where no instance fits.
pub fn pick(instances: &[Instance], args: &[Form]) -> Option<usize>
    ensures value { result ≡ least_place (types_of instances.now) args.now }
    ensures least { IfSome result (λ place. IsLeastPlace (types_of instances.now) args.now place) }
    ensures none { IsTrue (all_compatible (types_of instances.now))
        → (IsNone result ↔ All (λ types. IsFalse (all_have_forms types args.now)) (types_of instances.now)) }
{
    first_least(instances, args)
}

fn first_least(instances: &[Instance], args: &[Form]) -> Option<usize>
    ensures { result ≡ least_place (types_of instances.now) args.now }
{
    for k in 0..instances.len() {
        if is_least_instance(instances, args, &instances[k]) {
            return Some(k);
        }
    }
    None
}

fn is_least_instance(instances: &[Instance], args: &[Form], instance: &Instance) -> bool
    ensures { result ≡ is_least (types_of instances.now) args.now instance.now.params.items }
{
    fits(&instance.params, args) && is_below_others(instances, args, instance)
}

// Whether the types of an instance are below those of each instance that fits.
fn is_below_others(instances: &[Instance], args: &[Form], instance: &Instance) -> bool
    ensures { result ≡ below_others (types_of instances.now) args.now instance.now.params.items }
{
    for other in instances {
        if fits(&other.params, args) && !all_below(&instance.params, &other.params) {
            return false;
        }
    }
    true
}

fn fits(params: &[ArrayType], args: &[Form]) -> bool
    ensures { result ≡ all_have_forms params.now args.now }
{
    if params.len() != args.len() {
        return false;
    }
    for k in 0..params.len() {
        if !has(&params[k], &args[k]) {
            return false;
        }
    }
    true
}

fn all_below(params: &[ArrayType], others: &[ArrayType]) -> bool
    ensures { result ≡ are_all_below params.now others.now }
{
    if params.len() != others.len() {
        return false;
    }
    for k in 0..params.len() {
        if !below(&params[k], &others[k]) {
            return false;
        }
    }
    true
}
