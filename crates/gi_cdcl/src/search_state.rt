use crate::order::Order;
use crate::seen::Seen;
use gi_lit::Clause;
use gi_prop::{Prop, Trail};
use std::alloc::Global;

/// The parts of a search.
#[derive(Drop)]
pub(crate) struct SearchState {
    pub alloc: Global,
    pub trail: Trail,
    pub prop: Prop,
    /// In which order variables are decided.
    pub order: Order,
    /// Which places of the trail the present conflict met.
    pub seen: Seen,
    /// So many variables have a value, as far as they are in use.
    pub vars_passed: u32,
    /// So many assumptions are true.
    pub assumed_passed: usize,
}

/// How many clauses a slice may learn, and the mark at which it stops.
#[derive(Clone, Copy)]
pub(crate) struct Bounds {
    pub limit: u32,
    pub serial: u64,
}

/// What a slice learnt so far, and the greatest mark that it saw.
#[derive(Drop)]
pub(crate) struct Progress {
    pub news: Vec<Clause>,
    pub mark: u64,
}
