//! Tests of what no contract says and no row of `sac_row_tests` shows: that files of the machine are fetched, that loops and calls are run as kernels, and
//! that elements are replaced in place.
#![tactic(auto)]

#[cfg(test)]
mod devices;
#[cfg(test)]
mod kernels;
#[cfg(test)]
mod values;
