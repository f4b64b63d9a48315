// The words of the table. One slot holds the value while nobody has the turn.
ghost use Rattle.std.specs.Prelude.{◌≡◌, ℕ, ◌+◌, ◌/◌, ◌%◌, ◌^◌, ◌<◌};
ghost use Rattle.gi_turn.specs.Entries.{head as head_of};

/// How many tickets were drawn.
pub(crate) const TICKET: usize = 0;

/// The history's length, and its phase.
pub(crate) const HEAD: usize = 1;

/// The greatest mark that was asked.
pub(crate) const STOP: usize = 2;

const PHASES: u64 = 8;

/// The word HEAD of a history of this length and phase.
pub(crate) fn head(length: u64, phase: u8) -> u64
    requires { length < 2 ^ 57 }
    ensures { result ≡ head_of length phase }
{
    PHASES * length + u64::from(phase)
}

/// The length that HEAD holds.
pub(crate) fn length_in(head: u64) -> u64
    ensures { result ≡ head / 8 }
{
    head / PHASES
}

/// The phase that HEAD holds.
pub(crate) fn phase_in(head: u64) -> u8
    ensures { result ≡ head % 8 }
{
    (head % PHASES) as u8
}
