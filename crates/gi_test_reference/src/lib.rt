//! The tests of the reference machine: a transcript of what it allows, and what it doesn't.
#![tactic(auto)]

#[cfg(test)]
mod entries;
#[cfg(test)]
mod transcript;
