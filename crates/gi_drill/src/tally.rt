ghost use Rattle.std.specs.Prelude.{◌≡◌};
ghost use Rattle.gi_drill.specs.Counting.{add_noted, kind_noted, new_tally, noted, raised, vars_noted, wait_noted};

use crate::kind::Kind;
use gi_model::{Call, Reply, Status};

/// What is counted among the answers: the number of variables as last told, the clauses that were
/// taken, and the solves that were found to have ended with a model or with a failing set. A count
/// stands still at `u64::MAX`.
#[derive(Clone, Copy, Debug, PartialEq, Eq)]
pub struct Tally {
    pub vars: u64,
    pub clauses: u64,
    pub sat: u64,
    pub unsat: u64,
}

impl Tally {
    /// Nothing counted yet.
    pub const fn new() -> Tally
        ensures { result ≡ new_tally }
    {
        Tally {
            vars: 0,
            clauses: 0,
            sat: 0,
            unsat: 0,
        }
    }

    /// Counts one more entry.
    pub fn note(&mut self, call: &Call, reply: &Reply)
        ensures { self.new ≡ noted self.old call.now reply.now }
    {
        self.note_reply(Kind::of(call), reply);
    }

    /// Counts the reply to a call of that kind.
    pub(crate) fn note_reply(&mut self, kind: Kind, reply: &Reply)
        ensures { self.new ≡ kind_noted self.old kind reply.now }
    {
        match kind {
            Kind::Vars => self.note_vars(reply),
            Kind::Add => self.note_add(reply),
            Kind::Wait => self.note_wait(reply),
            Kind::Other => {}
        }
    }

    // Keeps the number of variables that is told.
    fn note_vars(&mut self, reply: &Reply)
        ensures { self.new ≡ vars_noted self.old reply.now }
    {
        if let Reply::Vars(n) = reply {
            self.vars = u64::from(*n);
        }
    }

    // Counts a clause that was taken.
    fn note_add(&mut self, reply: &Reply)
        ensures { self.new ≡ add_noted self.old reply.now }
    {
        if let Reply::Done = reply {
            self.clauses = one_more(self.clauses);
        }
    }

    // Counts a solve that ended with a model or with a failing set.
    fn note_wait(&mut self, reply: &Reply)
        ensures { self.new ≡ wait_noted self.old reply.now }
    {
        match reply {
            Reply::Status {
                status: Status::Sat,
                ..
            } => self.sat = one_more(self.sat),
            Reply::Unsat { .. } => self.unsat = one_more(self.unsat),
            _ => {}
        }
    }
}

// One more, up to the type's end.
#[tactic(auto, unfolding(crate::specs::Counting::raised))]
fn one_more(n: u64) -> u64
    ensures { result ≡ raised n }
{
    n.saturating_add(1)
}
