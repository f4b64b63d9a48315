ghost use Rattle.std.specs.Prelude.{◌≡◌};
ghost use Rattle.gi_model.specs.Refusals.{while_running, while_paused, needs_solve, is_work};
ghost use Rattle.gi_model.specs.History.{is_load, is_of_payload};

use crate::calls::Call;
use crate::refusal::Refusal;

impl Call {
    /// Whether a running solve admits the call.
    pub fn while_running(&self) -> bool
        ensures { result ≡ while_running self.now }
    {
        match self {
            Call::Pause | Call::Resume | Call::Stop | Call::Poll | Call::Wait => true,
            Call::Model | Call::Known | Call::KnownClause(_) | Call::Reasons(_) => true,
            Call::Bye | Call::Shut => true,
            _ => false,
        }
    }

    /// Whether a paused solve admits the call.
    pub fn while_paused(&self) -> bool
        ensures { result ≡ while_paused self.now }
    {
        match self {
            Call::Vars(_) | Call::Add(_) => true,
            Call::NewGuard => true,
            Call::Under(_, _) | Call::DropGuard(_) => true,
            _ => self.while_running(),
        }
    }

    /// Whether the call speaks of a solve.
    pub fn needs_solve(&self) -> bool
        ensures { result ≡ needs_solve self.now }
    {
        match self {
            Call::Pause | Call::Resume | Call::Stop | Call::Poll | Call::Wait => true,
            _ => false,
        }
    }

    /// Whether it is a slice of work.
    pub fn is_work(&self) -> bool
        ensures { result ≡ is_work self.now }
    {
        match self {
            Call::Work(_) => true,
            _ => false,
        }
    }

    /// Whether it has a payload.
    pub fn is_load(&self) -> bool
        ensures { result ≡ is_load self.now }
    {
        match self {
            Call::LoadCnf(_) => true,
            _ => false,
        }
    }
}

impl Refusal {
    /// Whether it is told of a load only once the payload was read.
    pub fn is_of_payload(&self) -> bool
        ensures { result ≡ is_of_payload self.now }
    {
        match self {
            Refusal::Lit => true,
            Refusal::Limit => true,
            Refusal::Payload { .. } => true,
            _ => false,
        }
    }
}
