//! The order of the functions in the new core: copies stand directly behind their sources, so that inline functions still call backward.

ghost use Rattle.std.specs.Prelude.{◌≡◌, IfOk, set};
ghost use Rattle.specialise.specs.Plans.{entries};
ghost use Rattle.specialise.specs.Orders.{numbers, keys_from, AreKeys, Sorted, IsInverse};

use crate::plan::Item;
use sac_base::Memory;
use std::alloc::Global;

/// The number of an item, and the place of its source.
#[derive(Drop, Clone, Copy)]
pub struct Key {
    pub source: u32,
    pub number: u32,
}

/// The keys of all items, by the places of their sources.
pub fn order_of(alloc: Global, items: &[Item]) -> Result<Vec<Key>, Memory>
    ensures keys { IfOk result (λ keys. AreKeys (entries items.now) keys.items) }
    ensures sorted { IfOk result (λ keys. Sorted keys.items) }
{
    let mut keys = keys_of(alloc, items)?;
    keys.sort_by_key(|key| key.source)?;
    Ok(keys)
}

fn keys_of(alloc: Global, items: &[Item]) -> Result<Vec<Key>, Memory>
    ensures { IfOk result (λ keys. keys.items ≡ keys_from 0 (entries items.now)) }
{
    let mut keys = Vec::new(alloc);
    for item in items {
        let number = u32::try_from(keys.len()).map_err(|_| Memory)?;
        keys.push(Key {
            source: item.source,
            number,
        })?;
    }
    Ok(keys)
}

/// Where each item stands in an order.
pub fn places_in(alloc: Global, keys: &[Key]) -> Result<Vec<u32>, Memory>
    ensures { IfOk result (λ places. IsInverse (numbers keys.now) places.items) }
{
    let mut places = vec![in alloc; 0; keys.len()]?;
    for k in 0..keys.len() {
        let place = u32::try_from(k).map_err(|_| Memory)?;
        let key = &keys[k];
        note_place(&mut places, key.number, place);
    }
    Ok(places)
}

/// Notes the place of an item, if there is room for it.
fn note_place(places: &mut Vec<u32>, number: u32, place: u32)
    ensures { places.new.items ≡ set places.old.items number place }
{
    let number = number as usize;
    if number < places.len() {
        places[number] = place;
    }
}
