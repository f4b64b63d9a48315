//! The tests of the line protocol and of the program's words, by public calls alone.
#![tactic(auto)]

#[cfg(test)]
mod wire;
#[cfg(test)]
mod words;
