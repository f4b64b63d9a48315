//! The clause-set machine: what it may be asked, what it may answer, and which histories are legal.
#![tactic(auto)]

mod calls;
mod check;
mod conditions;
mod entry;
mod facts;
mod kinds;
mod laws;
mod life;
mod limits;
pub mod lists;
mod pacing;
mod phase;
mod refusal;
mod replies;
mod run;
mod solve;
mod table;
mod verdict;

pub use calls::Call;
pub use check::check_model;
pub use entry::EntryRef;
pub use facts::Facts;
pub use laws::{
    calls_may_come, guards_are_clean, histories_are_kept, histories_go_on, learnt_clauses_are_told,
    reasons_show, refusals_are_named, solves_are_short,
};
pub use life::Life;
pub use limits::{
    MAX_CLAUSES, MAX_LITS, MAX_NEWS, MAX_PAYLOAD, MAX_PENDING, MAX_SCOPES, MAX_SOLVES,
    MAX_UNTRIMMED,
};
pub use pacing::luby;
pub use phase::Phase;
pub use refusal::{PayloadCode, Refusal};
pub use replies::{Cause, Now, Reply, Status, Verdict, Why};
pub use run::Run;
pub use solve::Solve;
pub use table::{is_live, refusal_of};
