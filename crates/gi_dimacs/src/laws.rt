// Laws of the formats.
ghost use Rattle.gi_dimacs.specs.Laws.{OneAnswer, FaultsStand, GoodValues};

/// In either format each list of bytes has exactly one value or exactly one fault.
pub fn one_answer()
    ensures { OneAnswer }
{}

/// A fault at a line of the input stands, however the input goes on behind that line.
pub fn faults_stand()
    ensures { FaultsStand }
{}

/// The good values are those that some bytes have, and each has its text.
pub fn good_values()
    ensures { GoodValues }
{}
