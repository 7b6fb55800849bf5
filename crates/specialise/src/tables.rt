//! The types of the instances of a group.

ghost use Rattle.std.specs.Prelude.{◌≡◌, map, IfOk};
ghost use Rattle.sac_base.specs.Types.{all_below as are_all_below};
ghost use Rattle.specialise.specs.groups.Specialised.{all_known};
ghost use Rattle.shape_types.specs.Instances.{types_of as types_in};
ghost use Rattle.specialise.specs.Plans.{entries};
ghost use Rattle.specialise.specs.Tables.{types_at, exact, are_same as same_types, has_same as has_same_types, known_count as count_known, forms_by};
ghost use Rattle.specialise.specs.Progress.{fit, FormsFound};

use crate::plan::Item;
use sac_base::{ArrayType, Form, Memory, Part, Shape, copy_type, part_has};
use shape_types::{Instance, below};
use std::alloc::Global;

/// The types of items.
pub fn table_of(alloc: Global, items: &[Item], members: &[u32]) -> Result<Vec<Instance>, Memory>
    ensures { IfOk result (λ table. types_in table.items ≡ map (types_at (entries items.now)) members.now) }
{
    let mut table = Vec::new(alloc);
    for member in members {
        let params = item_types(alloc, items, *member)?;
        table.push(Instance { params })?;
    }
    Ok(table)
}

/// The types of an item. There are none where no item is.
pub fn item_types(alloc: Global, items: &[Item], number: u32) -> Result<Vec<ArrayType>, Memory>
    ensures { IfOk result (λ types. types.items ≡ types_at (entries items.now) number) }
{
    copy_types(alloc, types_of(items, number))
}

/// The types of an item, where they stand.
pub fn types_of(items: &[Item], number: u32) -> &[ArrayType]
    ensures { result.now ≡ types_at (entries items.now) number }
{
    match items.get(number as usize) {
        Some(item) => &item.types,
        None => &[],
    }
}

/// The same types.
pub fn copy_types(alloc: Global, types: &[ArrayType]) -> Result<Vec<ArrayType>, Memory>
    ensures { IfOk result (λ copy. copy.items ≡ types.now) }
{
    let mut copy = Vec::new(alloc);
    for ty in types {
        copy.push(copy_type(ty))?;
    }
    Ok(copy)
}

/// The types of arrays of these forms alone.
pub fn exact_types(alloc: Global, forms: &[Form]) -> Result<Vec<ArrayType>, Memory>
    ensures { IfOk result (λ types. types.items ≡ exact forms.now) }
{
    let mut types = Vec::new(alloc);
    for form in forms {
        types.push(ArrayType {
            base: form.base,
            part: Part::Known(form.shape.copy()),
        })?;
    }
    Ok(types)
}

/// The forms of arrays of known shapes, with the bases of types.
fn forms_of(alloc: Global, types: &[ArrayType], shapes: &[Shape]) -> Result<Vec<Form>, Memory>
    ensures { IfOk result (λ forms. forms.items ≡ forms_by types.now shapes.now) }
{
    let mut forms = Vec::new(alloc);
    for k in 0..types.len().min(shapes.len()) {
        forms.push(Form {
            base: types[k].base,
            shape: shapes[k].copy(),
        })?;
    }
    Ok(forms)
}

/// The forms of arrays of known shapes, with the bases of an item's types, if these contain such arrays.
pub fn forms_at(
    alloc: Global,
    items: &[Item],
    number: u32,
    shapes: &[Shape],
) -> Result<Option<Vec<Form>>, Memory>
    ensures { IfOk result (λ forms. FormsFound (types_at (entries items.now) number) shapes.now forms) }
{
    let types = types_of(items, number);
    if !fits(types, shapes) {
        return Ok(None);
    }
    Ok(Some(forms_of(alloc, types, shapes)?))
}

/// Whether types of so many parameters contain arrays of these shapes.
fn fits(types: &[ArrayType], shapes: &[Shape]) -> bool
    ensures { result ≡ fit types.now shapes.now }
{
    if types.len() != shapes.len() {
        return false;
    }
    for k in 0..types.len() {
        if !part_has(&types[k].part, &shapes[k]) {
            return false;
        }
    }
    true
}

/// Whether an instance among these takes the same arrays as the types.
pub fn has_same(items: &[Item], members: &[u32], types: &[ArrayType]) -> bool
    ensures { result ≡ has_same_types (map (types_at (entries items.now)) members.now) types.now }
{
    for k in 0..members.len() {
        if are_same(types_of(items, members[k]), types) {
            return true;
        }
    }
    false
}

fn are_same(types: &[ArrayType], others: &[ArrayType]) -> bool
    ensures { result ≡ same_types types.now others.now }
{
    all_below(types, others) && all_below(others, types)
}

/// Whether each type lies in the one beside it, of as many.
pub fn all_below(types: &[ArrayType], others: &[ArrayType]) -> bool
    ensures { result ≡ are_all_below types.now others.now }
{
    if types.len() != others.len() {
        return false;
    }
    for k in 0..types.len() {
        if !below(&types[k], &others[k]) {
            return false;
        }
    }
    true
}

/// How many of these instances have known shapes alone.
pub fn known_count(items: &[Item], members: &[u32]) -> usize
    ensures { result ≡ count_known (map (types_at (entries items.now)) members.now) }
{
    let mut count = 0;
    for k in 0..members.len() {
        if are_known(types_of(items, members[k])) {
            count += 1;
        }
    }
    count
}

/// Whether each type has one shape.
pub fn are_known(types: &[ArrayType]) -> bool
    ensures { result ≡ all_known types.now }
{
    for k in 0..types.len() {
        if !is_known(&types[k]) {
            return false;
        }
    }
    true
}

fn is_known(ty: &ArrayType) -> bool
    ensures { result ≡ Rattle.specialise.specs.groups.Specialised.is_known ty.now.part }
{
    matches!(ty.part, Part::Known(_))
}
