// The line of a connection that was served.
ghost use Rattle.std.specs.Prelude.{◌≡◌, [], List, ℕ};
ghost use Rattle.gi_outside.specs.World.{World};
ghost use Rattle.gi_outside.specs.Outbox.{Stands};
ghost use Rattle.gi_outside.specs.Sent.{Sends};
ghost use Rattle.gi_serve.specs.ClosedLines.{closed_line, how_word};

use gi_net::How;
use gi_outside::{Link, Outbox, Sent};

/// Writes the line `closed K HOW`. `Failed` comes only where a write of `user` failed; then a front
/// of the line was written.
pub fn print_closed<U: Link>(number: u32, how: How, user: &mut U) -> Sent
    ensures { Sends result (U.state user.old) (U.state user.new) (closed_line number how) }
{
    let mut outbox = Outbox::new();
    put_closed(&mut outbox, number, how, user);
    outbox.finish(user)
}

// Puts the line.
#[tactic(auto, unfolding(crate::specs::ClosedLines::closed_line))]
fn put_closed<U: Link>(outbox: &mut Outbox, number: u32, how: How, user: &mut U)
    ensures { (start : World) → Stands start (U.state user.old) outbox.old []
        → Stands start (U.state user.new) outbox.new (closed_line number how) }
{
    outbox.put(b"closed ", user);
    outbox.put_number(u64::from(number), user);
    outbox.put(b" ", user);
    outbox.put(word_of(how), user);
    outbox.put(b"\n", user);
}

// How a session ended, in a word.
fn word_of(how: How) -> &'static [u8]
    ensures { result.now ≡ how_word how }
{
    match how {
        How::Bye => b"bye",
        How::Eof => b"eof",
        How::NoMemory => b"nomem",
        How::Dead => b"dead",
        How::ReadFault => b"read",
        How::WriteFault => b"write",
        How::TooMuch => b"much",
    }
}
