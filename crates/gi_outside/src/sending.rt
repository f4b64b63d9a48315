// Bytes to a link.
ghost use Rattle.gi_outside.specs.Sent.{Sends};

use crate::{Link, Put, Sent};
use gi_text::skip;

/// Writes all bytes, in as many pieces as the link takes, and takes no memory. After `Failed` a
/// front of them was written that lacks the last byte, and the link's count of failed writes rose.
pub fn write_all<L: Link>(bytes: &[u8], link: &mut L) -> Sent
    ensures { Sends result (L.state link.old) (L.state link.new) bytes.now }
{
    let mut rest = bytes;
    while !rest.is_empty() {
        match link.write(rest) {
            Put::Took(n) => rest = skip(rest, n),
            Put::Failed => return Sent::Failed,
        }
    }
    Sent::Done
}
