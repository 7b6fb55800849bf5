//! The variables of a function that runs.

ghost use Rattle.std.specs.Prelude.{◌≡◌, OnOk, IfSome, IfNone, Some, None, option_map};
ghost use Rattle.sac_base.specs.Outcomes.{with_variable};
ghost use Rattle.source_meaning.specs.Environments.{env_of, env_of_bindings};

use sac_base::{Array, Memory, Name, copy_name, same_name};

/// A variable and its value.
#[derive(Drop)]
pub struct Binding {
    pub name: Name,
    pub value: Array,
}

/// The variables that are bound: those of this scope, and behind them those of the scope around it.
#[derive(Drop)]
pub struct Environment<'a> {
    pub outer: Option<&'a Environment<'a>>,
    pub bindings: Vec<Binding>,
}

/// The value of a variable, if it is bound.
pub fn lookup<'a>(env: &'a Environment<'a>, name: &Name) -> Option<&'a Array>
    ensures { option_map (λ a. a.now) result ≡ env_of env.now name.now }
{
    match find(&env.bindings, name) {
        Some(value) => Some(value),
        None => match env.outer {
            Some(outer) => lookup(outer, name),
            None => None,
        },
    }
}

fn find<'a>(bindings: &'a [Binding], name: &Name) -> Option<&'a Array>
    ensures { option_map (λ a. a.now) result ≡ env_of_bindings bindings.now name.now }
{
    for binding in bindings {
        if same_name(&binding.name, name) {
            return Some(&binding.value);
        }
    }
    None
}

/// Binds a variable of this scope to a value.
pub fn assign(env: &mut Environment<'_>, name: &Name, value: Array) -> Result<(), Memory>
    ensures { OnOk result (env_of env.new ≡ with_variable name.now value (env_of env.old)) }
{
    assign_in(&mut env.bindings, name, value)
}

fn assign_in(bindings: &mut Vec<Binding>, name: &Name, value: Array) -> Result<(), Memory>
    ensures { OnOk result (env_of_bindings bindings.new.items ≡ with_variable name.now value (env_of_bindings bindings.old.items)) }
{
    for i in 0..bindings.len() {
        if same_name(&bindings[i].name, name) {
            bindings[i].value = value;
            return Ok(());
        }
    }
    let name = copy_name(name)?;
    bindings.push(Binding { name, value })?;
    Ok(())
}
