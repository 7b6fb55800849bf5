//! Tests of calls that no whole run makes, and of values that are worked out for a single call.
#![tactic(auto)]

#[cfg(test)]
mod cutter;
#[cfg(test)]
mod grids;
#[cfg(test)]
mod heaps;
#[cfg(test)]
mod machine;
#[cfg(test)]
mod making;
#[cfg(test)]
mod positions;
#[cfg(test)]
mod sets;
#[cfg(test)]
mod substitution;
#[cfg(test)]
mod tables;
