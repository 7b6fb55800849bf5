//! Short lists of numbers.

ghost use Rattle.std.specs.Prelude.{◌≤◌};

use sac_base::Cell;

/// At most 8 numbers, which lie in the value itself.
#[derive(Clone, Copy, Debug)]
pub struct Few {
    len: usize,
    items: [i32; 8],
    ghost few: { len ≤ 8 },
}

impl Few {
    ghost use Rattle.std.specs.Prelude.{◌≡◌, ◌≤◌, ◌<◌, ◌∷◌, ◌++◌, [], length, cond, nat_lt};
    ghost use Rattle.run_values.specs.Numbers.{numbers};
    ghost use Rattle.run_values.specs.Shown.{ShortOf};

    /// The most numbers.
    pub const MOST: usize = 8;

    /// No number.
    pub fn empty() -> Few
        ensures { numbers result ≡ [] }
    {
        Few {
            len: 0,
            items: [0; 8],
        }
    }

    /// One number.
    pub fn one(n: Cell) -> Few
        ensures { numbers result ≡ n ∷ [] }
    {
        let mut items = [0; 8];
        items[0] = n;
        Few { len: 1, items }
    }

    /// These numbers, if there are at most 8.
    pub fn from_slice(list: &[Cell]) -> Option<Few>
        ensures { ShortOf list.now result }
    {
        if list.len() > Few::MOST {
            return None;
        }
        let mut few = Few::empty();
        for n in list {
            few.push(*n);
        }
        Some(few)
    }

    /// Adds a number at the end, if there are fewer than 8. Says whether there were.
    pub fn push(&mut self, n: Cell) -> bool
        ensures room { result ≡ nat_lt (length (numbers self.old)) 8 }
        ensures numbers { numbers self.new ≡ cond result (numbers self.old ++ n ∷ []) (numbers self.old) }
    {
        if self.len >= Few::MOST {
            return false;
        }
        self.items[self.len] = n;
        self.len += 1;
        true
    }

    /// The numbers.
    pub fn as_slice(&self) -> &[Cell]
        ensures numbers { result.now ≡ numbers self.now }
        ensures few { length result.now ≤ 8 }
    {
        &self.items[..self.len]
    }

    /// How many numbers there are.
    pub fn len(&self) -> usize
        ensures count { result ≡ length (numbers self.now) }
        ensures few { result ≤ 8 }
    {
        self.len
    }
}
