//! The tests of the machine: sessions with their answers, and a chain that is followed in time.
#![tactic(auto)]

#[cfg(test)]
mod chain;
#[cfg(test)]
mod sessions;
#[cfg(test)]
mod transcript;
