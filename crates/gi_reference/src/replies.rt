ghost use Rattle.std.specs.Prelude.{◌≡◌, ◌+◌, ◌↔◌, IsTrue};

use crate::lists::is_same;
use gi_lit::Lits;
use gi_model::{Refusal, Reply, Status};

pub fn is_done(reply: &Reply) -> bool
    ensures { IsTrue result ↔ (reply.now ≡ Reply.Done) }
{
    matches!(reply, Reply::Done)
}

pub fn is_bye(reply: &Reply) -> bool
    ensures { IsTrue result ↔ (reply.now ≡ Reply.Bye) }
{
    matches!(reply, Reply::Bye)
}

pub fn is_idle(reply: &Reply) -> bool
    ensures { IsTrue result ↔ (reply.now ≡ Reply.Idle) }
{
    matches!(reply, Reply::Idle)
}

pub fn is_no_memory(reply: &Reply) -> bool
    ensures { IsTrue result ↔ (reply.now ≡ Reply.NoMemory) }
{
    matches!(reply, Reply::NoMemory)
}

pub fn is_refusal(reply: &Reply, refusal: Refusal) -> bool
    ensures { IsTrue result ↔ (reply.now ≡ Reply.Refused refusal) }
{
    match reply {
        Reply::Refused(other) => *other == refusal,
        _ => false,
    }
}

pub fn is_vars(reply: &Reply, count: u32) -> bool
    ensures { IsTrue result ↔ (reply.now ≡ Reply.Vars count) }
{
    match reply {
        Reply::Vars(n) => *n == count,
        _ => false,
    }
}

/// Whether the answer is that a file of so many variables and clauses was loaded.
pub fn is_loaded(reply: &Reply, vars: u32, clauses: usize) -> bool
    ensures { IsTrue result ↔ (reply.now ≡ Reply.LoadedCnf vars clauses) }
{
    match reply {
        Reply::LoadedCnf {
            vars: n,
            clauses: count,
        } => *n == vars && *count as usize == clauses,
        _ => false,
    }
}

pub fn is_guard(reply: &Reply, index: u32) -> bool
    ensures { IsTrue result ↔ (reply.now ≡ Reply.Guard index) }
{
    match reply {
        Reply::Guard(g) => g.index() == index,
        _ => false,
    }
}

/// Whether the answer is that a solve was started, the next after this serial.
pub fn is_next_started(reply: &Reply, serial: u64) -> bool
    ensures { IsTrue result ↔ (reply.now ≡ Reply.Started (serial + 1)) }
{
    match reply {
        Reply::Started(n) => *n > 0 && *n - 1 == serial,
        _ => false,
    }
}

pub fn is_known(reply: &Reply, count: u64) -> bool
    ensures { IsTrue result ↔ (reply.now ≡ Reply.Known count) }
{
    match reply {
        Reply::Known(n) => *n == count,
        _ => false,
    }
}

pub fn is_status(reply: &Reply, serial: u64, status: Status) -> bool
    ensures { IsTrue result ↔ (reply.now ≡ Reply.Status serial status) }
{
    match reply {
        Reply::Status {
            serial: n,
            status: other,
        } => *n == serial && *other == status,
        _ => false,
    }
}

pub fn is_model(reply: &Reply, lits: &Lits) -> bool
    ensures { IsTrue result ↔ (reply.now ≡ Reply.Model lits.now) }
{
    match reply {
        Reply::Model(ls) => is_same(ls.as_slice(), lits.as_slice()),
        _ => false,
    }
}

pub fn is_clause(reply: &Reply, lits: &Lits) -> bool
    ensures { IsTrue result ↔ (reply.now ≡ Reply.Clause lits.now) }
{
    match reply {
        Reply::Clause(ls) => is_same(ls.as_slice(), lits.as_slice()),
        _ => false,
    }
}

pub fn is_unsat(reply: &Reply, serial: u64, lits: &Lits) -> bool
    ensures { IsTrue result ↔ (reply.now ≡ Reply.Unsat serial lits.now) }
{
    match reply {
        Reply::Unsat { serial: n, failed } => {
            *n == serial && is_same(failed.as_slice(), lits.as_slice())
        }
        _ => false,
    }
}
