//! Circuits of inputs, latches and hashed and-gates, and their values.
#![tactic(auto)]

mod circuit;
mod fold;
mod found;
mod import;
mod laws;
mod net;
mod node;
mod values;

pub use circuit::{Circuit, Counts};
pub use laws::{
    circuits_mean_their_files, conjunctions_have_their_values, good_is_circuit, good_is_importable,
    pairs_come_again,
};
pub use net::{Net, Size};
pub use node::Node;
pub use values::Values;
