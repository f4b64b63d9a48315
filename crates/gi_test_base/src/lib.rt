//! The tests of the crates below the search and the session, by their public calls alone.
#![tactic(auto)]

#[cfg(test)]
mod chains;
#[cfg(test)]
mod dimacs;
#[cfg(test)]
mod files;
#[cfg(test)]
mod levels;
#[cfg(test)]
mod literals;
#[cfg(test)]
mod model;
#[cfg(test)]
mod outside;
#[cfg(test)]
mod store;
#[cfg(test)]
mod text;
