// What a phase is opened from: its first words, and the slots with its parts.
ghost use Rattle.std.specs.Prelude.{◌≡◌, ◌≤◌, [], ◌∷◌, ◌++◌, map, IfOk, Some, vec_len, vec_capacity};
ghost use Rattle.count_table.specs.Opening.{present};

use sac_base::Memory;
use std::alloc::Global;

/// No memory was found to open a phase. The parts come back.
#[derive(Drop)]
pub struct Unopened<T> {
    pub parts: Vec<T>,
}

impl<T: Drop> From<Unopened<T>> for Memory {
    fn from(_refused: Unopened<T>) -> Self {
        Memory
    }
}

// The first chunk number, and the counts.
pub(crate) fn words_of(alloc: Global, counts: &[u64]) -> Result<Vec<u64>, Memory>
    ensures { IfOk result (λ v. v.items ≡ 0 ∷ counts.now) }
{
    let mut words = Vec::with_capacity(alloc, counts.len() + 1)?;
    words.push(0)?;
    words.extend_from_slice(counts)?;
    Ok(words)
}

// Moves each part into a slot of its own. There is room, so nothing fails.
pub(crate) fn fill_slots<T: Drop>(parts: &mut Vec<T>, slots: &mut Vec<Option<T>>)
    requires empty { slots.old.items ≡ [] }
    requires room { vec_len parts.old ≤ vec_capacity slots.old }
    ensures slots { slots.new.items ≡ map Some parts.old.items }
    ensures parts { parts.new.items ≡ [] }
    ensures capacity { vec_capacity parts.new ≡ vec_capacity parts.old }
{
    for part in parts.drain(..) {
        slots.push_reserved(Some(part));
    }
}

// Moves the parts back out of their slots.
pub(crate) fn empty_slots<T: Drop>(slots: Vec<Option<T>>, parts: &mut Vec<T>)
    requires empty { parts.old.items ≡ [] }
    requires room { vec_len slots ≤ vec_capacity parts.old }
    ensures { parts.new.items ≡ present slots.items }
{
    for slot in slots {
        if let Some(part) = slot {
            parts.push_reserved(part);
        }
    }
}
