//! The clause-set machine over plain lists: slow, and proved to compute its definitions.
#![tactic(auto)]

mod answers;
mod closure;
mod facts;
mod follow;
mod learning;
mod listing;
mod lists;
mod loads;
mod machine;
mod outcome;
mod reasons;
mod refusals;
mod replies;
mod scopes;
mod slices;
mod store;
mod truth;
mod work;

pub use machine::Plain;
