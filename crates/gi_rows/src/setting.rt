/// What a row is run over. A setting is a word and a number.
#[derive(Clone, Copy, Debug, PartialEq, Eq)]
pub struct Setting {
    /// `pieces`: the most bytes of a read; 0: as many as fit.
    pub pieces: u32,
    /// `read`: the number of the read that fails, from 1; 0: none.
    pub read: u64,
    /// `write`: the number of the write that fails, from 1; 0: none.
    pub write: u64,
    /// `calls`: how many calls the pass has, 0 or a power of two.
    pub calls: u64,
    /// `sessions`: how many sessions were served in the room before, 0 or 1.
    pub sessions: u32,
    /// `long`: the length of a line that stands before the input; 0: there is none.
    pub long: u32,
}

impl Setting {
    /// A new pass of 2^56 calls, over a link that gives all bytes at once and never fails.
    pub fn plain() -> Setting {
        Setting {
            pieces: 0,
            read: 0,
            write: 0,
            calls: 1 << 56,
            sessions: 0,
            long: 0,
        }
    }

    /// It with one setting more, by its text.
    pub fn with(mut self, text: &str) -> Option<Setting> {
        let (word, number) = text.split_once(' ')?;
        let number: u32 = number.parse().ok()?;
        match word {
            "pieces" => self.pieces = number,
            "read" => self.read = u64::from(number),
            "write" => self.write = u64::from(number),
            "calls" => self.calls = u64::from(number),
            "sessions" if number <= 1 => self.sessions = number,
            "long" => self.long = number,
            _ => return None,
        }
        Some(self)
    }
}
