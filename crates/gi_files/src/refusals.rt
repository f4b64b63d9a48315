// Refusals of an input.
ghost use Rattle.std.specs.Prelude.{◌≡◌, [], List, ℕ};
ghost use Rattle.gi_outside.specs.World.{World};
ghost use Rattle.gi_outside.specs.Outbox.{Stands};
ghost use Rattle.gi_outside.specs.Sent.{Sends};
ghost use Rattle.gi_files.specs.Texts.{code_text, refused_text};

use gi_dimacs::{CnfCode, CnfFault};
use gi_outside::{Link, Outbox, Sent};

/// Writes the line that refuses an input for this fault: `refused`, the line and the code's name.
/// Takes no memory. After
/// `Failed` a front of it was written that lacks its last byte, and the link's count of failed writes rose.
pub fn write_refused<L: Link>(fault: CnfFault, user: &mut L) -> Sent
    ensures { Sends result (L.state user.old) (L.state user.new) (refused_text fault) }
{
    let mut outbox = Outbox::new();
    put_refusal(&mut outbox, fault, user);
    outbox.finish(user)
}

#[tactic(auto, unfolding(crate::specs::Texts::refused_text))]
fn put_refusal<L: Link>(outbox: &mut Outbox, fault: CnfFault, user: &mut L)
    ensures { (start : World) → Stands start (L.state user.old) outbox.old []
        → Stands start (L.state user.new) outbox.new (refused_text fault) }
{
    outbox.put(b"refused ", user);
    outbox.put_number(fault.line, user);
    outbox.put(b" ", user);
    outbox.put(name_of(fault.code), user);
    outbox.put(b"\n", user);
}

// The name of a code.
fn name_of(code: CnfCode) -> &'static [u8]
    ensures { result.now ≡ code_text code }
{
    match code {
        CnfCode::Header => b"header",
        CnfCode::Word => b"word",
        CnfCode::Number => b"number",
        CnfCode::Limit => b"limit",
        CnfCode::Unterminated => b"unterminated",
    }
}
