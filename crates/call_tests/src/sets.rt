ghost use Rattle.std.specs.Prelude.{◌≡◌, ◌≤◌, pos, length, All, IfOk};

use crate::making::{TEN, all, line, members};
use generator_sets::{GenError, meet, minus, partition};
use sac_base::{Grid, Grid1, Memory};
use std::alloc::Global;

/// The members below 64 of grids of one axis.
fn members_of(pieces: &[Grid]) -> u64 {
    let mut seen = 0;
    for piece in pieces {
        seen ^= members(piece.axes());
    }
    seen
}

/// The members of both grids, and those of the first alone.
fn met_and_left(alloc: Global, a: Grid1, b: Grid1) -> Result<(u64, u64), GenError> {
    let a = line(alloc, a)?;
    let b = line(alloc, b)?;
    let met = members_of(&meet(alloc, &a, &b)?);
    let left = members_of(&minus(alloc, &a, &b)?);
    Ok((met, left))
}

// A loop over the numbers from 1 to 8 reads its left neighbours, of which those from 0 to 4 have a generator.
#[test]
fn members_at_neighbours(rt: HostRuntime) {
    let found = met_and_left(rt.alloc(), all(1, 9), all(1, 6));
    assert_eq!(rt; found, Ok((0b11_1110, 0b1_1100_0000)));
}

/// A grid of so many axes, which are all one.
fn cube(alloc: Global, axes: usize, side: Grid1) -> Result<Grid, Memory>
    requires { axes ≤ 3 }
    ensures axes { IfOk result (λ grid. length grid ≡ axes) }
    ensures unit { side.step ≡ pos 1 → IfOk result (λ grid. All (λ axis. axis.step ≡ pos 1) grid) }
{
    let mut sides = Vec::new(alloc);
    sides.resize(axes, side)?;
    Ok(Grid::new(sides))
}

/// How many parts a frame of so many axes of 10 numbers has, with generators of these ones.
fn parts(alloc: Global, axes: usize, first: Grid1, second: Grid1) -> Result<usize, GenError>
    requires { axes ≤ 3 }
{
    let frame = cube(alloc, axes, TEN)?;
    let generators = [cube(alloc, axes, first)?, cube(alloc, axes, second)?];
    Ok(partition(alloc, &frame, &generators)?.parts.len())
}

#[test]
fn neighbours_of_one_first_generator_are_joined(rt: HostRuntime) {
    let alloc = rt.alloc();
    let inner = all(1, 9);
    let counts = [
        parts(alloc, 1, all(0, 5), all(5, 10)),
        parts(alloc, 1, inner, inner),
        parts(alloc, 2, inner, inner),
        parts(alloc, 2, all(2, 8), inner),
        parts(alloc, 3, inner, inner),
    ];
    assert_eq!(rt; counts, [Ok(2), Ok(3), Ok(5), Ok(9), Ok(7)]);
}
