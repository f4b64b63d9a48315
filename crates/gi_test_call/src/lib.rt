//! The tests of the client, by public calls alone.
#![tactic(auto)]

#[cfg(test)]
mod client;
#[cfg(test)]
mod kept;
