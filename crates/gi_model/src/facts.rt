ghost use Rattle.std.specs.Prelude.{◌≡◌, ◌==◌, ◌&&◌, nat_le, length};
ghost use Rattle.gi_lit.specs.Literals.{max_var};
ghost use Rattle.gi_lit.specs.Problem.{has, is_usable};
ghost use Rattle.gi_model.specs.State.{State, scope_listed};
ghost use Rattle.gi_model.specs.Refusals.{is_full};
ghost use Rattle.gi_model.specs.Views.{solve_of, life_of};

use crate::life::Life;
use crate::solve::Solve;
use gi_lit::{Lit, Var};

/// What a machine tells of its state: all that the refusals before a payload is read ask.
pub trait Facts {
    /// The state.
    ghost state: { Self → State };

    /// Whether calls are still taken.
    fn life(&self) -> Life
        ensures { life_of result ≡ (state self.now).life };

    /// The solve.
    fn solve(&self) -> &Solve
        ensures { solve_of result.now ≡ (state self.now).solve };

    /// The serial of the last solve, 0 before the first.
    fn serial(&self) -> u64
        ensures { result ≡ (state self.now).serial };

    /// The pending assumptions.
    fn pending(&self) -> &[Lit]
        ensures { result.now ≡ (state self.now).pending };

    /// How many scopes are open.
    fn depth(&self) -> usize
        ensures { result ≡ length (state self.now).scopes };

    /// Whether an open scope lists the literal.
    fn lists(&self, m: Lit) -> bool
        ensures { result ≡ has (scope_listed (state self.now).scopes) m };

    /// How many learnt clauses there are.
    fn known(&self) -> u64
        ensures { result ≡ length (state self.now).known };

    /// Whether the literal is of a problem variable, or of one that isn't there yet.
    fn is_usable(&self, l: Lit) -> bool
        ensures { result ≡ is_usable (state self.now).problem l };

    /// Whether the guard is active.
    fn is_active(&self, g: Var) -> bool
        ensures { result ≡ has (state self.now).problem.active g };

    /// Whether no guard is left to hand out.
    fn lacks_guard(&self) -> bool
        ensures { result ≡ ((length (state self.now).problem.freed == 0)
            && nat_le max_var (state self.now).problem.vars) };

    /// Whether one clause more, of these literals and with so many as given, would be too much.
    fn is_full(&self, clause: &[Lit], lits: u128) -> bool
        ensures { result ≡ is_full (state self.now).problem clause.now lits };
}
