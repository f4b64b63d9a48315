//! Circuits unrolled over time into clauses.
#![tactic(auto)]

mod builder;
mod clauses;
mod extend;
mod frame;
mod laws;
mod unroll;

pub use frame::Frame;
pub use laws::{
    earlier_frames_stay, extensions_are_one, frames_are_traces, frames_grow, frames_keep,
    frames_one_by_one, no_frame_says_nothing, traces_are_packed, values_choose,
};
pub use unroll::Unroll;
