//! The tests of AIGER's readers and writers, of circuits and of their frames, by public calls
//! alone.
#![tactic(auto)]

#[cfg(test)]
mod circuit;
#[cfg(test)]
mod files;
#[cfg(test)]
mod frames;
#[cfg(test)]
mod reading;
#[cfg(test)]
mod writing;
