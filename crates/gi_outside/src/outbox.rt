// Bytes gathered for a link.
ghost use Rattle.std.specs.Prelude.{◌≡◌, ◌<◌, ◌++◌, ◌∷◌, List, ℕ, [], length, decimal};
ghost use Rattle.gi_outside.specs.World.{World};
ghost use Rattle.gi_outside.specs.Sent.{Sends};
ghost use Rattle.gi_outside.specs.Outbox.{Stands};

use crate::{Link, Sent, write_all};
use gi_text::Digits;
use std::marker::Model;

// The most bytes that wait.
const ROOM: usize = 4096;

/// A text that is gathered for a link and written in pieces of 4,096 bytes, the last one by
/// `finish`: so a short text is one piece. It takes no memory. Once a write has failed, nothing
/// more is written.
#[derive(Drop)]
pub struct Outbox {
    bytes: [u8; ROOM],
    len: usize,
    broken: bool,
}

impl Model for Outbox {
    ghost use Rattle.std.specs.Prelude.{take, ◌≤◌};
    ghost use Rattle.gi_outside.specs.Outbox.{Waiting};

    ghost Value = { Waiting };

    ghost view = { λ o. record { bytes = take o.len o.bytes; broken = o.broken } };

    ghost invariant = { λ o. o.len ≤ 4096 };
}

impl Outbox {
    /// The text is empty, and nothing waits.
    pub fn new() -> Outbox
        ensures { (start : World) → Stands start start result [] }
    {
        Outbox {
            bytes: [0; ROOM],
            len: 0,
            broken: false,
        }
    }

    /// Puts bytes behind the text so far, whatever it is.
    pub fn put<L: Link>(&mut self, bytes: &[u8], link: &mut L)
        ensures { (start : World) (text : List ℕ) → Stands start (L.state link.old) self.old text
            → Stands start (L.state link.new) self.new (text ++ bytes.now) }
    {
        for b in bytes {
            self.put_byte(*b, link);
        }
    }

    /// Puts the digits of a number behind the text so far.
    pub fn put_number<L: Link>(&mut self, number: u64, link: &mut L)
        ensures { (start : World) (text : List ℕ) → Stands start (L.state link.old) self.old text
            → Stands start (L.state link.new) self.new (text ++ decimal number) }
    {
        self.put(Digits::of(i128::from(number)).as_slice(), link);
    }

    fn put_byte<L: Link>(&mut self, byte: u8, link: &mut L)
        ensures { (start : World) (text : List ℕ) → Stands start (L.state link.old) self.old text
            → Stands start (L.state link.new) self.new (text ++ byte ∷ []) }
    {
        if self.len == ROOM {
            self.flush(link);
        }
        self.add(byte);
    }

    fn add(&mut self, byte: u8)
        requires { length self.old.bytes < 4096 }
        ensures bytes { self.new.bytes ≡ self.old.bytes ++ byte ∷ [] }
        ensures broken { self.new.broken ≡ self.old.broken }
    {
        self.bytes[self.len] = byte;
        self.len += 1;
    }

    fn flush<L: Link>(&mut self, link: &mut L)
        ensures stands { (start : World) (text : List ℕ)
            → Stands start (L.state link.old) self.old text
            → Stands start (L.state link.new) self.new text }
        ensures empty { self.new.bytes ≡ [] }
    {
        if self.broken {
            self.len = 0;
            return;
        }
        match write_all(&self.bytes[..self.len], link) {
            Sent::Done => self.len = 0,
            Sent::Failed => {
                self.broken = true;
                self.len = 0;
            }
        }
    }

    /// Writes what waits: the text is then written whole, or cut where a write failed.
    pub fn finish<L: Link>(mut self, link: &mut L) -> Sent
        ensures { (start : World) (text : List ℕ) → Stands start (L.state link.old) self text
            → Sends result start (L.state link.new) text }
    {
        self.flush(link);
        if self.broken {
            Sent::Failed
        } else {
            Sent::Done
        }
    }
}
