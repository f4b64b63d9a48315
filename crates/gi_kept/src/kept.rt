// What a client keeps.
ghost use Rattle.std.specs.Prelude.{◌≡◌, ◌∷◌, ◌++◌, ◌↔◌, [], max, List, ℕ, IfOk, IsTrue, OnErr, OnOk};
ghost use Rattle.std.specs.List.{flat_map};
ghost use Rattle.gi_lit.specs.Problem.{has, top, without_groups};
ghost use Rattle.gi_kept.specs.Kept.{accepted, all_assumed, is_accepted, kept_after, noted, nothing_kept, with_guard, with_load, without_scope};
ghost use Rattle.gi_kept.specs.Truth.{IsTrueTo};
ghost use Rattle.gi_model.specs.declared.calls.Call.TheVariants as calls;

use crate::guarded::Guarded;
use crate::load::read_load;
use crate::marks::Marks;
use crate::truth::{holds_each, meets_each, meets_forced};
use gi_dimacs::Cnf;
use gi_lit::{Clause, Guards, Lit, Lits, Var, top_variable};
use gi_model::{Call, Reply};
use std::alloc::{AllocError, Global};
use std::marker::Model;
use std::mem;

/// What a client keeps of a session: variables, guards, clauses and clauses under guards, and the
/// assumptions that are pending, of the open scopes and of the solve that was started last.
#[derive(Drop)]
pub struct Kept {
    alloc: Global,
    vars: u32,
    guards: Vec<Var>,
    plain: Vec<Clause>,
    groups: Vec<Guarded>,
    pending: Vec<Lit>,
    scopes: Vec<Lits>,
    assumed: Vec<Lit>,
}

impl Model for Kept {
    ghost use Rattle.gi_kept.specs.Kept.{Kept as KeptValue};

    ghost Value = { KeptValue };

    ghost view = { λ k. record {
      vars = k.vars;
      guards = k.guards.items;
      plain = k.plain.items;
      groups = k.groups.items;
      pending = k.pending.items;
      scopes = k.scopes.items;
      assumed = k.assumed.items;
    } };
}

impl Kept {
    /// Nothing is kept yet. Takes no memory.
    pub fn new(alloc: Global) -> Kept
        ensures { result ≡ nothing_kept }
    {
        Kept {
            alloc,
            vars: 0,
            guards: Vec::new(alloc),
            plain: Vec::new(alloc),
            groups: Vec::new(alloc),
            pending: Vec::new(alloc),
            scopes: Vec::new(alloc),
            assumed: Vec::new(alloc),
        }
    }

    /// The greatest variable that was named.
    pub fn vars(&self) -> u32
        ensures { result ≡ self.now.vars }
    {
        self.vars
    }

    /// Takes a call with its answer. A refusal and want of memory change nothing. An error is want
    /// of memory here, and changes nothing either.
    #[tactic(auto, unfolding(crate::specs::Kept::kept_after))]
    pub fn take(&mut self, call: Call, reply: &Reply) -> Result<(), AllocError>
        ensures ok { OnOk result (self.new ≡ kept_after self.old call reply.now) }
        ensures err { OnErr result (self.new ≡ self.old) }
    {
        if !is_accepted(reply) {
            return Ok(());
        }
        self.accept(call, reply)
    }

    // Takes a call that was accepted.
    fn accept(&mut self, call: Call, reply: &Reply) -> Result<(), AllocError>
        ensures ok { OnOk result (self.new ≡ accepted self.old call reply.now) }
        ensures err { OnErr result (self.new ≡ self.old) }
    {
        match call {
            Call::Vars(n) => {
                self.raise(n);
                Ok(())
            }
            Call::Add(clause) => self.add(clause),
            Call::NewGuard => self.note_guard(reply),
            Call::Under(guards, clause) => self.add_under(guards, clause),
            Call::DropGuard(guard) => {
                self.drop_guard(guard);
                Ok(())
            }
            Call::Assume(literals) => self.assume(literals.as_slice()),
            Call::Test => self.open_scope(),
            Call::Untest => {
                self.close_scope();
                Ok(())
            }
            Call::Solve(_) => self.start(),
            Call::LoadCnf(bytes) => self.load(bytes.as_slice()),
            Call::Reasons(_) | Call::Pause | Call::Resume | Call::Stop | Call::Poll => Ok(()),
            Call::Wait | Call::Model | Call::Known | Call::KnownClause(_) => Ok(()),
            Call::Bye | Call::Shut | Call::Work(_) => Ok(()),
        }
    }

    // At least so many variables.
    fn raise(&mut self, n: u32)
        ensures { self.new ≡ record self.old { vars = max self.old.vars n } }
    {
        self.vars = self.vars.max(n);
    }

    fn add(&mut self, clause: Clause) -> Result<(), AllocError>
        ensures ok { OnOk result (self.new ≡ record self.old {
          vars = max self.old.vars (top clause);
          plain = self.old.plain ++ clause ∷ [];
        }) }
        ensures err { OnErr result (self.new ≡ self.old) }
    {
        let greatest = top_variable(clause.as_slice());
        self.plain.push(clause)?;
        self.raise(greatest);
        Ok(())
    }

    // A guard was handed out, if the answer tells one.
    fn note_guard(&mut self, reply: &Reply) -> Result<(), AllocError>
        ensures ok { OnOk result (self.new ≡ with_guard reply.now self.old) }
        ensures err { OnErr result (self.new ≡ self.old) }
    {
        match reply {
            Reply::Guard(guard) => self.add_guard(*guard),
            _ => Ok(()),
        }
    }

    fn add_guard(&mut self, guard: Var) -> Result<(), AllocError>
        ensures ok { OnOk result (self.new ≡ record self.old {
          vars = max self.old.vars guard;
          guards = noted guard self.old.guards;
        }) }
        ensures err { OnErr result (self.new ≡ self.old) }
    {
        if !has_var(self.guards.as_slice(), guard) {
            self.guards.push(guard)?;
        }
        self.raise(guard.index());
        Ok(())
    }

    fn add_under(&mut self, guards: Guards, clause: Clause) -> Result<(), AllocError>
        ensures ok { OnOk result (self.new ≡ record self.old {
          vars = max self.old.vars (top clause);
          groups = self.old.groups ++ record { guards = guards; clause = clause } ∷ [];
        }) }
        ensures err { OnErr result (self.new ≡ self.old) }
    {
        let greatest = top_variable(clause.as_slice());
        self.groups.push(Guarded { guards, clause })?;
        self.raise(greatest);
        Ok(())
    }

    // The clauses under a guard go. This looks at all clauses under guards.
    fn drop_guard(&mut self, guard: Var)
        ensures { self.new ≡ record self.old { groups = without_groups guard self.old.groups } }
    {
        drop_groups(&mut self.groups, guard);
    }

    fn assume(&mut self, literals: &[Lit]) -> Result<(), AllocError>
        ensures ok { OnOk result (self.new ≡ record self.old {
          vars = max self.old.vars (top literals.now);
          pending = self.old.pending ++ literals.now;
        }) }
        ensures err { OnErr result (self.new ≡ self.old) }
    {
        self.pending.extend_from_slice(literals)?;
        self.raise(top_variable(literals));
        Ok(())
    }

    // Opens a scope with the pending assumptions.
    fn open_scope(&mut self) -> Result<(), AllocError>
        ensures ok { OnOk result (self.new ≡ record self.old {
          scopes = self.old.scopes ++ self.old.pending ∷ [];
          pending = [];
        }) }
        ensures err { OnErr result (self.new ≡ self.old) }
    {
        self.scopes.reserve(1)?;
        let pending = mem::replace(&mut self.pending, Vec::new(self.alloc));
        self.scopes.push_reserved(Lits::from_vec(pending));
        Ok(())
    }

    // The last scope goes, if there is one.
    fn close_scope(&mut self)
        ensures { self.new ≡ without_scope self.old }
    {
        let rest = self.scopes.len().saturating_sub(1);
        self.scopes.truncate(rest);
    }

    // A solve was started.
    fn start(&mut self) -> Result<(), AllocError>
        ensures ok { OnOk result (self.new ≡ record self.old {
          pending = [];
          assumed = all_assumed self.old;
        }) }
        ensures err { OnErr result (self.new ≡ self.old) }
    {
        let mut assumed = join(self.alloc, self.scopes.as_slice())?;
        assumed.extend_from_slice(self.pending.as_slice())?;
        self.assumed = assumed;
        self.pending.clear();
        Ok(())
    }

    fn load(&mut self, bytes: &[u8]) -> Result<(), AllocError>
        ensures ok { OnOk result (self.new ≡ with_load bytes.now self.old) }
        ensures err { OnErr result (self.new ≡ self.old) }
    {
        let Cnf { vars, clauses } = read_load(self.alloc, bytes)?;
        let mut clauses = clauses.into_vec();
        self.plain.append(&mut clauses)?;
        self.raise(vars);
        Ok(())
    }

    /// Whether a model is true to what is kept: each clause in force in the last solve has one of
    /// its literals in it, and each assumption of that solve whose variable is no guard stands in
    /// it.
    pub fn is_true(&self, model: &[Lit]) -> Result<bool, AllocError>
        ensures { IfOk result (λ told. IsTrue told ↔ IsTrueTo self.now model.now) }
    {
        let assumed = self.assumed.as_slice();
        let marks = Marks::of_lits(self.alloc, model)?;
        let on = Marks::of_lits(self.alloc, assumed)?;
        let guards = Marks::of_vars(self.alloc, self.guards.as_slice())?;
        if !meets_each(&marks, self.plain.as_slice()) {
            return Ok(false);
        }
        if !meets_forced(&marks, &on, self.groups.as_slice()) {
            return Ok(false);
        }
        Ok(holds_each(&guards, &marks, assumed))
    }
}

// Whether a call with this answer was accepted.
fn is_accepted(reply: &Reply) -> bool
    ensures { result ≡ is_accepted reply.now }
{
    match reply {
        Reply::Refused(_) | Reply::NoMemory => false,
        _ => true,
    }
}

// The clauses under a guard go.
fn drop_groups(groups: &mut Vec<Guarded>, guard: Var)
    ensures items { groups.new.items ≡ without_groups guard groups.old.items }
{
    groups.retain(|q| !has_var(q.guards.as_slice(), guard));
}

fn has_var(vars: &[Var], v: Var) -> bool
    ensures { result ≡ has vars.now v }
{
    let wanted = v.index();
    vars.iter().any(|w| wanted == w.index())
}

// The lists, one behind the other.
fn join(alloc: Global, lists: &[Lits]) -> Result<Vec<Lit>, AllocError>
    ensures { IfOk result (λ v. v.items ≡ flat_map (λ ls. ls) lists.now) }
{
    let mut joined = Vec::new(alloc);
    for list in lists {
        joined.extend_from_slice(list.as_slice())?;
    }
    Ok(joined)
}
