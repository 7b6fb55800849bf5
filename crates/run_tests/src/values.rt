//! The shape of a value, and elements that are replaced in place.

use buffer_heap::Heap;
use run_store::{Store, keep, place_own, read_array, update_element};
use run_types::shape_of;
use run_values::{Few, RunValue};
use sac_base::{Array, Base, Cell, Memory};
use std::alloc::Global;

// The extents of a vector of five numbers.
fn extents_of_five(alloc: Global) -> Result<Option<Cell>, Memory> {
    let Some(five) = Few::from_slice(&[1, 2, 3, 4, 5]) else {
        return Err(Memory);
    };
    let shape = shape_of(alloc, &RunValue::Short(Base::Int, five))?;
    Ok(shape.extents().first().copied())
}

#[test]
fn a_value_has_a_shape(rt: HostRuntime) {
    assert_eq!(rt; extents_of_five(rt.alloc()), Ok(Some(5)));
}

// The number at place 3 of a vector of twelve zeros where it is replaced with so many references to the vector, and how many buffers were taken and given
// back. None where it is not replaced in place.
fn replaced(alloc: Global, references: u32) -> Result<Option<(Cell, u64, u64)>, Memory> {
    let mut store = Store::of(Heap::new(alloc));
    let zeros = Array::vector(alloc, Base::Int, Vec::from_slice(alloc, &[0; 12])?);
    let array = place_own(&mut store, zeros)?;
    if references > 1 {
        keep(&mut store, array)?;
    }
    let index = RunValue::Short(Base::Int, Few::one(3));
    let part = RunValue::Word(Base::Int, -1);
    let Some(value) = update_element(&mut store, &array, &index, &part)? else {
        return Ok(None);
    };
    let array = read_array(alloc, &store, value)?;
    let Some(n) = array.cells().get(3) else {
        return Err(Memory);
    };
    Ok(Some((*n, store.own.taken(), store.own.given())))
}

#[test]
fn an_element_is_replaced_in_place(rt: HostRuntime) {
    assert_eq!(rt; replaced(rt.alloc(), 1), Ok(Some((-1, 2, 1))));
    assert_eq!(rt; replaced(rt.alloc(), 2), Ok(None));
}
