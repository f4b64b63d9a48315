// Which answers a call can have.
ghost use Rattle.std.specs.Prelude.{◌≡◌};
ghost use Rattle.gi_kept.specs.Replies.{has_payload, is_bye, is_done, is_own, may_answer, may_refuse, tells_clause, tells_end, tells_guard, tells_known, tells_load, tells_model, tells_reasons, tells_start, tells_status, tells_test, tells_vars};

use gi_model::{Call, PayloadCode, Refusal, Reply};

/// Whether the call can have this answer: its own kind of answer if it is accepted, each refusal,
/// and want of memory. A payload is refused of a load alone. `Shut` and `Work`, which have no line,
/// have no own answer.
#[tactic(auto, unfolding(crate::specs::Replies::may_answer))]
pub fn may_answer(call: &Call, reply: &Reply) -> bool
    ensures { result ≡ may_answer call.now reply.now }
{
    match reply {
        Reply::Refused(refusal) => may_refuse(call, refusal),
        Reply::NoMemory => true,
        _ => is_own(call, reply),
    }
}

fn may_refuse(call: &Call, refusal: &Refusal) -> bool
    ensures { result ≡ may_refuse call.now refusal.now }
{
    match refusal {
        Refusal::Payload {
            code: PayloadCode::Cnf(_),
            ..
        } => has_payload(call),
        _ => true,
    }
}

fn has_payload(call: &Call) -> bool
    ensures { result ≡ has_payload call.now }
{
    match call {
        Call::LoadCnf(_) => true,
        _ => false,
    }
}

// Whether it is the answer to the call where that is accepted.
fn is_own(call: &Call, reply: &Reply) -> bool
    ensures { result ≡ is_own call.now reply.now }
{
    match call {
        Call::Vars(_) => tells_vars(reply),
        Call::Add(_) | Call::Under(_, _) | Call::DropGuard(_) => is_done(reply),
        Call::Assume(_) | Call::Untest => is_done(reply),
        Call::NewGuard => tells_guard(reply),
        Call::Test => tells_test(reply),
        Call::Reasons(_) => tells_reasons(reply),
        Call::Solve(_) => tells_start(reply),
        Call::Pause | Call::Resume | Call::Stop | Call::Poll => tells_status(reply),
        Call::Wait => tells_end(reply),
        Call::Model => tells_model(reply),
        Call::Known => tells_known(reply),
        Call::KnownClause(_) => tells_clause(reply),
        Call::LoadCnf(_) => tells_load(reply),
        Call::Bye => is_bye(reply),
        Call::Shut | Call::Work(_) => false,
    }
}

fn is_done(reply: &Reply) -> bool
    ensures { result ≡ is_done reply.now }
{
    match reply {
        Reply::Done => true,
        _ => false,
    }
}

fn tells_vars(reply: &Reply) -> bool
    ensures { result ≡ tells_vars reply.now }
{
    match reply {
        Reply::Vars(_) => true,
        _ => false,
    }
}

fn tells_guard(reply: &Reply) -> bool
    ensures { result ≡ tells_guard reply.now }
{
    match reply {
        Reply::Guard(_) => true,
        _ => false,
    }
}

fn tells_test(reply: &Reply) -> bool
    ensures { result ≡ tells_test reply.now }
{
    match reply {
        Reply::Implied(_) | Reply::Failed(_) => true,
        _ => false,
    }
}

fn tells_reasons(reply: &Reply) -> bool
    ensures { result ≡ tells_reasons reply.now }
{
    match reply {
        Reply::Reasons(_) => true,
        _ => false,
    }
}

fn tells_start(reply: &Reply) -> bool
    ensures { result ≡ tells_start reply.now }
{
    match reply {
        Reply::Started(_) => true,
        _ => false,
    }
}

// How a solve stands, in each form.
fn tells_status(reply: &Reply) -> bool
    ensures { result ≡ tells_status reply.now }
{
    match reply {
        Reply::Status { .. } => true,
        _ => false,
    }
}

// The same, and the failing assumptions.
fn tells_end(reply: &Reply) -> bool
    ensures { result ≡ tells_end reply.now }
{
    match reply {
        Reply::Status { .. } | Reply::Unsat { .. } => true,
        _ => false,
    }
}

fn tells_model(reply: &Reply) -> bool
    ensures { result ≡ tells_model reply.now }
{
    match reply {
        Reply::Model(_) => true,
        _ => false,
    }
}

fn tells_known(reply: &Reply) -> bool
    ensures { result ≡ tells_known reply.now }
{
    match reply {
        Reply::Known(_) => true,
        _ => false,
    }
}

fn tells_clause(reply: &Reply) -> bool
    ensures { result ≡ tells_clause reply.now }
{
    match reply {
        Reply::Clause(_) => true,
        _ => false,
    }
}

fn tells_load(reply: &Reply) -> bool
    ensures { result ≡ tells_load reply.now }
{
    match reply {
        Reply::LoadedCnf { .. } => true,
        _ => false,
    }
}

fn is_bye(reply: &Reply) -> bool
    ensures { result ≡ is_bye reply.now }
{
    match reply {
        Reply::Bye => true,
        _ => false,
    }
}
