ghost use Rattle.std.specs.Prelude.{◌≡◌};
ghost use Rattle.gi_drill.specs.Counting.{kind_of};

use gi_model::Call;

/// What of a call's reply is noted.
#[derive(Clone, Copy, Debug, PartialEq, Eq)]
pub enum Kind {
    /// The number of variables.
    Vars,
    /// Whether a clause was taken.
    Add,
    /// How a solve has ended.
    Wait,
    /// Nothing.
    Other,
}

impl Kind {
    /// What is noted of the reply to such a call.
    pub fn of(call: &Call) -> Kind
        ensures { result ≡ kind_of call.now }
    {
        match call {
            Call::Vars(_) => Kind::Vars,
            Call::Add(_) => Kind::Add,
            Call::Wait => Kind::Wait,
            _ => Kind::Other,
        }
    }
}
