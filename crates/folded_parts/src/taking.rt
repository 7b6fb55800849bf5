//! What stands for a selection from a producer: a copy of the body of a part.

ghost use Rattle.std.specs.Prelude.{◌≡◌, ◌<◌, ◌+◌, ◌++◌, [], ◌∷◌, IfOk, OnOk, IfSome, IfNone, Some, None, map, length, slice_get};
ghost use Rattle.core_ir.specs.Terms.{Plain, Copy};
ghost use Rattle.core_ir.specs.View.{let_term, part_term, right_term};
ghost use Rattle.folded_parts.specs.Folding.{chosen as chosen_by, copy_binds, last_copy as last_of, part_for, taken};

use crate::renaming::renamed;
use core_ir::{Block, CorePart, Let, Right, Var};
use parted_bodies::Progress;
use sac_base::{Memory, Site};
use std::alloc::Global;

/// A producer, and which of its parts stands for each selection from it.
#[derive(Clone, Copy)]
pub struct Source<'a> {
    pub producer: Var,
    pub parts: &'a [CorePart],
    /// The number of a part for each selection, in order.
    pub holders: &'a [usize],
}

impl Source<'_> {
    /// The part whose number stands in the list at this place.
    fn part_for(&self, place: usize) -> Option<&CorePart>
        ensures some { IfSome result (λ part. (part_for (map part_term self.now.parts.now) (slice_get self.now.holders.now place) ≡ Some (part_term part.now))
            × (place < length self.now.holders.now)) }
        ensures none { IfNone result (part_for (map part_term self.now.parts.now) (slice_get self.now.holders.now place) ≡ None) }
    {
        let number = self.holders.get(place)?;
        self.parts.get(*number)
    }

    /// The index and the part, where a right side is a selection from the producer.
    pub fn chosen(&self, right: &Right, place: usize) -> Option<(Var, &CorePart)>
        ensures some { IfSome result (λ found. (chosen_by self.now.producer (map part_term self.now.parts.now) self.now.holders.now place (right_term right.now)
            ≡ Some (found.0, part_term found.1.now)) × (place < length self.now.holders.now)) }
        ensures none { IfNone result (chosen_by self.now.producer (map part_term self.now.parts.now) self.now.holders.now place (right_term right.now) ≡ None) }
    {
        match right {
            Right::Select(array, index) => {
                if self.producer.0 != array.0 {
                    return None;
                }
                match self.part_for(place) {
                    Some(part) => Some((*index, part)),
                    None => None,
                }
            }
            _ => None,
        }
    }
}

/// Appends what stands for a selection: the index, the bindings of the part and the target, with new variables.
///
/// # Errors
///
/// `Memory`: there is none for the copy, or the numbers of variables have more than 32 bits.
pub fn push_taken(
    alloc: Global,
    part: &CorePart,
    index: Var,
    targets: &[Var],
    site: Site,
    lets: &mut Vec<Let>,
    progress: &mut Progress,
) -> Result<(), Memory>
    ensures lets { OnOk result (map let_term lets.new.items
        ≡ map let_term lets.old.items ++ taken (part_term part.now) index targets.now site progress.old.next) }
    ensures next { OnOk result (progress.new ≡ record progress.old { next = progress.old.next + copy_binds (part_term part.now) }) }
{
    let own = progress.take()?;
    lets.push(copy_of(alloc, own, site, index)?)?;
    let Block {
        lets: mut inner,
        results,
    } = renamed(alloc, &part.body, part.index, own, progress)?;
    lets.append(&mut inner)?;
    push_last(alloc, targets, &results, site, lets)?;
    Ok(())
}

/// The first target becomes the first result.
fn push_last(
    alloc: Global,
    targets: &[Var],
    results: &[Var],
    site: Site,
    lets: &mut Vec<Let>,
) -> Result<(), Memory>
    ensures { OnOk result (map let_term lets.new.items ≡ map let_term lets.old.items ++ last_of targets.now results.now site) }
{
    if let (Some(target), Some(source)) = (targets.first(), results.first()) {
        lets.push(copy_of(alloc, *target, site, *source)?)?;
    }
    Ok(())
}

fn copy_of(alloc: Global, target: Var, site: Site, source: Var) -> Result<Let, Memory>
    ensures { IfOk result (λ l. let_term l ≡ record { targets = target ∷ []; site = site; right = Plain (Copy source) }) }
{
    let mut targets = Vec::new(alloc);
    targets.push(target)?;
    Ok(Let {
        targets,
        site,
        right: Right::Copy(source),
    })
}
