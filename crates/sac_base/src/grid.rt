ghost use Rattle.std.specs.Prelude.{◌≡◌, ◌≤◌, ◌≤ℤ◌, pos, length, vec_len, IfOk};

use crate::Memory;
use std::alloc::Global;
use std::marker::Model;

/// The whole numbers x from `lo` on and below `hi` with (x - lo) mod `step` below `width`.
#[derive(Clone, Copy, Debug, PartialEq, Eq)]
pub struct Grid1 {
    pub lo: i64,
    pub hi: i64,
    pub step: i64,
    pub width: i64,
    pub ghost steps: { pos 1 ≤ℤ step },
    pub ghost wide: { pos 1 ≤ℤ width },
}

impl Grid1 {
    ghost use Rattle.std.specs.Prelude.{◌≡◌};
    ghost use Rattle.sac_base.specs.Grids.{has_index};

    /// Whether the number is a member.
    pub fn has(&self, x: i64) -> bool
        ensures { result ≡ has_index self.now x }
    {
        if x < self.lo || self.hi <= x {
            return false;
        }
        x.abs_diff(self.lo) % self.step.unsigned_abs() < self.width.unsigned_abs()
    }
}

/// The index vectors whose components are members of the axes, of which there are at most 8.
#[derive(Debug, Drop)]
pub struct Grid {
    axes: Vec<Grid1>,
}

impl Model for Grid {
    ghost use Rattle.std.specs.Prelude.{List, length, ◌≤◌};
    ghost use Rattle.sac_base.specs.declared.grid.Grid1.{Grid1};

    ghost Value = { List Grid1 };

    ghost view = { λ grid. grid.axes.items };

    ghost invariant = { λ grid. length grid.axes.items ≤ 8 };
}

impl Grid {
    ghost use Rattle.std.specs.Prelude.{◌≡◌, ◌≤◌, length, vec_len, IfOk};
    ghost use Rattle.sac_base.specs.Grids.{has_vector};

    /// Whether an index is a member: as long as there are axes, each component a member of its axis.
    pub fn contains(&self, index: &[i32]) -> bool
        ensures { result ≡ has_vector self.now index.now }
    {
        let axes = self.axes();
        if axes.len() != index.len() {
            return false;
        }
        for k in 0..axes.len() {
            if !axes[k].has(i64::from(index[k])) {
                return false;
            }
        }
        true
    }

    /// The grid of the axes, the outermost first.
    pub fn new(axes: Vec<Grid1>) -> Grid
        requires { vec_len axes ≤ 8 }
        ensures { result ≡ axes.items }
    {
        Grid { axes }
    }

    /// The axes, the outermost first.
    pub fn axes(&self) -> &[Grid1]
        ensures axes { result.now ≡ self.now }
        ensures few { length self.now ≤ 8 }
    {
        self.axes.as_slice()
    }

    /// The axes of a grid that is given up.
    pub fn into_axes(self) -> Vec<Grid1>
        ensures axes { result.items ≡ self }
        ensures few { length self ≤ 8 }
    {
        self.axes
    }

    /// A grid of equal axes.
    pub fn copy(&self, alloc: Global) -> Result<Grid, Memory>
        ensures { IfOk result (λ copy. copy ≡ self.now) }
    {
        let axes = Vec::from_slice(alloc, self.axes.as_slice())?;
        Ok(Grid { axes })
    }
}
