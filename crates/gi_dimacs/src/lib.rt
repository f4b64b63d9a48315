//! DIMACS CNF and iCNF: exact readers of pieces, and writers.
#![tactic(auto)]

mod cnf;
mod content;
mod fault;
mod head;
mod items;
mod laws;
mod machine;
mod reader;
mod readers;
mod value;
mod words;
mod writing;

pub use cnf::{Cnf, Icnf};
pub use fault::{CnfCode, CnfFault};
pub use items::{Item, Items};
pub use laws::{faults_stand, good_values, one_answer};
pub use readers::{CnfRead, CnfReader, FileRead, FileReader, IcnfRead, IcnfReader};
pub use value::FileValue;
pub use writing::{write_cnf, write_icnf};
