ghost use Rattle.std.specs.Prelude.{◌≡◌};
ghost use Rattle.gi_model.specs.Refusals.{is_over};
ghost use Rattle.gi_model.specs.Views.{life_of};

/// Whether calls are still taken: shut by a caller, dead for want of memory.
#[derive(Clone, Copy, Debug, PartialEq, Eq)]
pub enum Life {
    Alive,
    Shut,
    Dead,
}

impl Life {
    /// Whether the machine is shut or dead.
    pub fn is_over(self) -> bool
        ensures { result ≡ is_over (life_of self) }
    {
        match self {
            Life::Alive => false,
            Life::Shut => true,
            Life::Dead => true,
        }
    }
}
