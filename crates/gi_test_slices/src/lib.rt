//! The tests of the machine's slices of work: how they end, and how long they are.
#![tactic(auto)]

#[cfg(test)]
mod pigeons;
#[cfg(test)]
mod slices;
