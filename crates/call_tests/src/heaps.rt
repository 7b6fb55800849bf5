//! Each step is asked for at run time, by a function without clauses, so that no test here needs to know what a heap holds.

use buffer_heap::{BufferId, Heap};
use sac_base::{Memory, Released};

// A buffer of so many zeros.
fn take(heap: &mut Heap, len: u8) -> Result<BufferId, Memory> {
    heap.take(u64::from(len))
}

// Whether a buffer has one reference, where it may have one more, which it then has.
fn keep(heap: &mut Heap, id: BufferId) -> Option<bool> {
    if !heap.has_room(id) {
        return None;
    }
    heap.keep(id);
    is_sole(heap, id)
}

fn is_sole(heap: &Heap, id: BufferId) -> Option<bool> {
    if heap.is_held(id) {
        Some(heap.is_sole(id))
    } else {
        None
    }
}

// One reference less, where the buffer is held.
fn release(heap: &mut Heap, id: BufferId) -> Option<Released> {
    if heap.is_held(id) {
        Some(heap.release(id))
    } else {
        None
    }
}

// Whether a buffer with a second reference has one alone, and what becomes of it as each of the two goes.
fn keep_and_release(heap: &mut Heap) -> Result<(Option<bool>, [Option<Released>; 2]), Memory> {
    let a = take(heap, 16)?;
    let sole = keep(heap, a);
    Ok((sole, [release(heap, a), release(heap, a)]))
}

#[test]
fn the_last_reference_frees_the_buffer(rt: HostRuntime) {
    let mut heap = Heap::new(rt.alloc());
    let found = keep_and_release(&mut heap);
    let figures = (heap.live(), heap.taken(), heap.given());
    let wanted = (Some(false), [Some(Released::More), Some(Released::Freed)]);
    assert!(rt; found == Ok(wanted) && figures == (0, 1, 1));
}

// Takes three buffers and gives them back, the middle one first.
fn take_three(heap: &mut Heap) -> Result<(), Memory> {
    let a = take(heap, 1)?;
    let b = take(heap, 2)?;
    let c = take(heap, 3)?;
    release(heap, b);
    release(heap, a);
    release(heap, c);
    Ok(())
}

#[test]
fn freed_places_are_used_again(rt: HostRuntime) {
    let mut heap = Heap::new(rt.alloc());
    for _ in 0..1000 {
        assert_eq!(rt; take_three(&mut heap), Ok(()));
    }
    assert_eq!(rt; (heap.live(), heap.places()), (0, 3));
}
