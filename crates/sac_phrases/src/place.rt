//! Where a phrase stands, and how high it is.
ghost use Rattle.std.specs.Prelude.{◌≡◌, ◌<◌, ◌≤◌, ◌+◌, max, true, false, IfOk, IfErr};
ghost use Rattle.sac_phrases.specs.Contract.{IsKept};

use crate::halt::Halt;
use sac_lex::Token;
use std::alloc::Global;

/// The greatest height within a function.
const GREATEST_HEIGHT: u32 = 99;

/// Where a phrase stands.
#[derive(Clone, Copy)]
pub struct Place {
    /// Where trees are put.
    pub alloc: Global,
    /// How many nodes of its function stand around it.
    pub depth: u32,
    /// Whether the limit on the height is kept.
    pub checked: bool,
}

impl Place {
    /// The place inside one more node.
    pub fn inside(self) -> Place
        ensures checked { result.checked ≡ self.checked }
        ensures depth { self.depth ≤ 99 → result.depth ≡ self.depth + 1 }
    {
        Place {
            alloc: self.alloc,
            depth: self.depth.saturating_add(1),
            checked: self.checked,
        }
    }

    /// Whether a node above one of this height is too high for the place.
    pub fn has_no_room(self, height: u32) -> bool
        ensures full { result ≡ true → (self.checked ≡ true) × (99 < self.depth + (height + 1)) }
        ensures room { result ≡ false → self.checked ≡ true → self.depth + (height + 1) ≤ 99 }
    {
        self.checked && height.saturating_add(self.depth) >= GREATEST_HEIGHT
    }
}

/// A tree with its height.
#[derive(Drop)]
pub struct Measured<T> {
    pub tree: T,
    /// How many nodes stand one in the other, at most.
    pub height: u32,
}

/// What was read, and the tokens behind it.
pub type Read<'a, T> = Result<(Measured<T>, &'a [Token<'a>]), Halt<'a>>;

/// The height of a node, by the greatest height of its children.
pub fn node_height(children: u32) -> u32
    ensures { children ≤ 100 → result ≡ 1 + children }
{
    children.saturating_add(1)
}

/// The tree and the tokens behind it, where the tree is not too high for the place.
pub fn kept<'a, T: Drop>(
    place: Place,
    node: Measured<T>,
    rest: &'a [Token<'a>],
) -> Result<(Measured<T>, &'a [Token<'a>]), Halt<'a>>
    ensures { IsKept place node rest.now result }
{
    let height = node.height.saturating_add(place.depth);
    if place.checked && height > GREATEST_HEIGHT {
        return Err(Halt::High(rest));
    }
    Ok((node, rest))
}
