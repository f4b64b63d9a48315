//! The tests of propagation by its own calls: those that no call of the machine reaches.
#![tactic(auto)]

#[cfg(test)]
mod parts;
#[cfg(test)]
mod watches;
