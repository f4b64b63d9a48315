//! The tests of what threads share, by public calls alone.
#![tactic(auto)]

#[cfg(test)]
mod host;
#[cfg(test)]
mod room;
#[cfg(test)]
mod turn;
