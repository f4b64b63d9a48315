//! Laws over the definitions, each the contract of a function that does nothing.

ghost use Rattle.gi_circuit.specs.Files.{CircuitsMeanTheirFiles};
ghost use Rattle.gi_circuit.specs.Importable.{GoodIsCircuit, GoodIsImportable};
ghost use Rattle.gi_circuit.specs.Laws.{ConjunctionsHaveTheirValues, ValuesStay, OrderDoesNotMatter, ConjunctionsComeAgain};

/// What `and` gives has the value of the conjunction, and what is there keeps its value.
pub fn conjunctions_have_their_values()
    ensures made { ConjunctionsHaveTheirValues }
    ensures stay { ValuesStay }
{}

/// A pair that is there gives its node again, in either order.
pub fn pairs_come_again()
    ensures order { OrderDoesNotMatter }
    ensures again { ConjunctionsComeAgain }
{}

/// Each value that some AIGER file says, in either form, meets all that `Circuit::from_aig` requires.
pub fn good_is_importable()
    ensures { GoodIsImportable }
{}

/// The circuit of a value that some AIGER file says keeps what always holds of circuits: gates stand behind
/// their operands, no pair stands twice, and edges are of nodes that exist.
pub fn good_is_circuit()
    ensures { GoodIsCircuit }
{}

/// The circuit that `Circuit::from_aig` makes of a value that some file says means that file: each literal of the
/// file has an edge, inputs and latches of the file those of the circuit, in order, and each gate of the file has
/// the value of the conjunction of its operands, whatever the inputs and the latches hold. Resets, next states,
/// outputs, bad states and constraints are those of the file, by these edges.
pub fn circuits_mean_their_files()
    ensures { CircuitsMeanTheirFiles }
{}
