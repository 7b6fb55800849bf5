use crate::making::members;
use grid_sets::{GridError, meet1, minus1};
use sac_base::Grid1;
use std::alloc::Global;

/// Every 4th number of the first 12 and the two behind it.
const BY_FOUR: Grid1 = Grid1 {
    lo: 0,
    hi: 12,
    step: 4,
    width: 3,
};

/// The first 12 numbers but every 6th from the end.
const BY_SIX: Grid1 = Grid1 {
    lo: 0,
    hi: 12,
    step: 6,
    width: 5,
};

/// Single numbers of the greatest period that may be.
const FINE: Grid1 = Grid1 {
    lo: 0,
    hi: 20_000_000,
    step: 4096,
    width: 1,
};

/// Single numbers whose period has no factor in common with 4,096.
const FINER: Grid1 = Grid1 {
    lo: 0,
    hi: 20_000_000,
    step: 4095,
    width: 1,
};

/// The members of both.
fn met(alloc: Global, a: &Grid1, b: &Grid1) -> Result<u64, GridError> {
    Ok(members(meet1(alloc, a, b)?.as_slice()))
}

/// The members of the first alone.
fn left(alloc: Global, a: &Grid1, b: &Grid1) -> Result<u64, GridError> {
    Ok(members(minus1(alloc, a, b)?.as_slice()))
}

#[test]
fn stepped_grids(rt: HostRuntime) {
    let alloc = rt.alloc();
    let found = [
        met(alloc, &BY_FOUR, &BY_SIX),
        left(alloc, &BY_FOUR, &BY_SIX),
        met(alloc, &FINE, &FINER),
        left(alloc, &FINE, &FINER),
    ];
    let too_fine = Err(GridError::TooFine);
    assert_eq!(rt;
        found,
        [Ok(0b0111_0101_0111), Ok(0b10_0000), too_fine, too_fine]
    );
}
