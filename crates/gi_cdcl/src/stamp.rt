ghost use Rattle.std.specs.Prelude.{◌≡◌, ◌≤◌, ◌/◌, ◌%◌, ◌==◌};

/// The last time that fits a stamp.
pub(crate) const LAST_TIME: u32 = 2_147_483_647;

/// When a variable moved to the front last, and the value that it had last, in one word of 32 bits.
#[derive(Clone, Copy)]
pub(crate) struct Stamp {
    /// Twice the time, and one more for the value true.
    word: u32,
}

impl Stamp {
    /// The stamp of a time before 2^31 and a value.
    pub(crate) fn of(time: u32, phase: bool) -> Stamp
        requires { time ≤ 2147483647 }
        ensures time { result.word / 2 ≡ time }
        ensures phase { (result.word % 2 == 1) ≡ phase }
    {
        Stamp {
            word: 2 * time + u32::from(phase),
        }
    }

    /// What the word of a node says.
    pub(crate) fn in_word(word: u32) -> Stamp
        ensures { result.word ≡ word }
    {
        Stamp { word }
    }

    /// The word that says it.
    pub(crate) fn word(self) -> u32
        ensures { result ≡ self.word }
    {
        self.word
    }

    /// The time.
    pub(crate) fn time(self) -> u32
        ensures value { result ≡ self.word / 2 }
        ensures fits { result ≤ 2147483647 }
    {
        self.word / 2
    }

    /// The value.
    pub(crate) fn phase(self) -> bool
        ensures { result ≡ (self.word % 2 == 1) }
    {
        self.word % 2 == 1
    }
}
