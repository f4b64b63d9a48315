ghost use Rattle.std.specs.Prelude.{◌≡◌, ◌≢◌, ℕ, ◌+◌, ◌-◌, ◌*◌, ◌/◌, ◌<◌, ◌≤◌, Some, length, take, drop, Contains, IfSome, MatchOption};
ghost use Rattle.gi_lit.specs.Literals.{max_var, IsLiteral};
ghost use Rattle.std.specs.Option.{SomeIff};
ghost use Rattle.gi_store.specs.StoreView.{IsWithin};
ghost use Rattle.gi_prop.specs.TrailView.{IsLate};
ghost use Rattle.gi_prop.specs.Watched.{IsIn, IsAside};
ghost use Rattle.gi_prop.specs.Watching.{AreHome};
ghost use Rattle.gi_prop.specs.Steps.{AreOthersFalse, IsLeft, IsSpare, IsLook};

use crate::starts::Starts;
use crate::trail::Trail;
use gi_chains::Chains;
use gi_lit::Lit;
use gi_store::Key;

/// The list of the clauses that wait for two different literals that aren't false.
pub(crate) const WAITING: u32 = 0;
/// The list of the clauses of one literal, repeated or not.
pub(crate) const SINGLE: u32 = 1;
/// The list of the empty clauses.
pub(crate) const EMPTY: u32 = 2;

/// Which different literals of a clause aren't false.
pub(crate) enum Left {
    /// These two, and maybe more.
    Two(Lit, Lit),
    /// This one alone.
    One(Lit),
    /// None is.
    Nothing,
}

/// What is to be done with a clause one of whose watches is false.
pub(crate) enum Look {
    /// Its other watch is true.
    Keep,
    /// It is to watch this literal.
    Move(Lit),
    /// Its other watch is forced.
    Force,
    /// All its literals are false.
    Conflict,
}

/// What was done with a clause.
pub(crate) enum Visited {
    /// Its nodes stay where they are.
    Kept,
    /// They went to other lists.
    Moved,
    /// All its literals are false.
    Failed(Key),
}

/// The list of a literal.
pub(crate) fn list_of(l: Lit) -> u32
    ensures value { result ≡ l + 1 }
    ensures low { 3 ≤ result }
{
    l.code() + 1
}

/// The literal whose list it is; None for the lists of clauses that watch nothing.
pub(crate) fn watched_lit(list: u32) -> Option<Lit>
    ensures { SomeIff result ((3 ≤ list) × (list ≤ 2 * max_var + 2)) (list - 1) }
{
    let code = list.checked_sub(1)?;
    Lit::from_code(code)
}

/// The literal in whose list the node stands. None exactly where it stands in no literal's list.
pub(crate) fn watch_in(chains: &Chains, node: u64) -> Option<Lit>
    requires { node < chains.now.nodes }
    ensures { MatchOption result ((a : ℕ) → IsLiteral a → ¬ IsIn chains.now (a + 1) node)
        (λ a. IsLiteral a × IsIn chains.now (a + 1) node) }
{
    match chains.list_of(node) {
        None => None,
        Some(list) => watched_lit(list),
    }
}

/// Which different literals of the clause aren't false.
pub(crate) fn non_false(clause: &[Lit], trail: &Trail) -> Left
    requires { IsWithin trail.now.vars clause.now }
    ensures { IsLeft trail.now.lits clause.now result }
{
    let mut left: Option<Lit> = None;
    for l in clause {
        let l = *l;
        if trail.is_false(l) {
            continue;
        }
        match left {
            None => left = Some(l),
            Some(other) => {
                if other != l {
                    return Left::Two(other, l);
                }
            }
        }
    }
    match left {
        None => Left::Nothing,
        Some(l) => Left::One(l),
    }
}

/// A literal that was found, and how far it is from where the look began.
#[derive(Clone, Copy)]
struct Found {
    lit: Lit,
    at: u32,
}

/// A literal of a part of a clause beside this one that isn't false.
fn spare_in(clause: &[Lit], other: Lit, trail: &Trail) -> Option<Found>
    requires { IsWithin trail.now.vars clause.now }
    ensures { MatchOption result (AreOthersFalse trail.now.lits clause.now other)
        (λ f. IsSpare trail.now.lits clause.now other (Some f.lit)) }
{
    let mut at = 0u32;
    for l in clause {
        let l = *l;
        if l != other && !trail.is_false(l) {
            return Some(Found { lit: l, at });
        }
        at = at.wrapping_add(1);
    }
    None
}

/// The same from a place on.
fn spare_behind(clause: &[Lit], place: u32, other: Lit, trail: &Trail) -> Option<Found>
    requires within { IsWithin trail.now.vars clause.now }
    requires place { place ≤ length clause.now }
    ensures { MatchOption result (AreOthersFalse trail.now.lits (drop place clause.now) other)
        (λ f. IsSpare trail.now.lits clause.now other (Some f.lit)) }
{
    spare_in(behind(clause, place), other, trail)
}

/// The same before a place.
fn spare_before(clause: &[Lit], place: u32, other: Lit, trail: &Trail) -> Option<Found>
    requires within { IsWithin trail.now.vars clause.now }
    requires place { place ≤ length clause.now }
    ensures { MatchOption result (AreOthersFalse trail.now.lits (take place clause.now) other)
        (λ f. IsSpare trail.now.lits clause.now other (Some f.lit)) }
{
    spare_in(up_to(clause, place), other, trail)
}

/// The literals from a place on.
fn behind(clause: &[Lit], place: u32) -> &[Lit]
    requires { place ≤ length clause.now }
    ensures { result.now ≡ drop place clause.now }
{
    &clause[place as usize..]
}

/// The literals before a place.
fn up_to(clause: &[Lit], place: u32) -> &[Lit]
    requires { place ≤ length clause.now }
    ensures { result.now ≡ take place clause.now }
{
    &clause[..place as usize]
}

/// A literal of the clause beside this one that isn't false. The look begins where the last one
/// ended, and goes on at the front.
fn replacement(
    clause: &[Lit],
    other: Lit,
    trail: &Trail,
    starts: &mut Starts,
    node: u64,
) -> Option<Lit>
    requires { IsWithin trail.now.vars clause.now }
    ensures { IsSpare trail.now.lits clause.now other result }
{
    let start = starts.of(node, clause.len());
    match spare_behind(clause, start, other, trail) {
        Some(found) => {
            starts.set(node, clause.len(), start.wrapping_add(found.at));
            Some(found.lit)
        }
        None => match spare_before(clause, start, other, trail) {
            Some(found) => {
                starts.set(node, clause.len(), found.at);
                Some(found.lit)
            }
            None => None,
        },
    }
}

/// A literal of the clause beside this one whose variable got its value late.
pub(crate) fn late_in(clause: &[Lit], other: Lit, trail: &Trail) -> Option<Lit>
    requires { IsWithin trail.now.vars clause.now }
    ensures { IfSome result (λ m. Contains clause.now m × (m ≢ other) × IsLate trail.now (m / 2)) }
{
    for l in clause {
        let l = *l;
        if l != other && trail.is_late(l.var()) {
            return Some(l);
        }
    }
    None
}

/// What is to be done with a clause that watches this literal, and one that is false.
pub(crate) fn look_at(
    clause: &[Lit],
    other: Lit,
    trail: &Trail,
    starts: &mut Starts,
    node: u64,
) -> Look
    requires within { IsWithin trail.now.vars clause.now }
    requires other { Contains clause.now other }
    ensures { IsLook trail.now.lits clause.now other result }
{
    match trail.value(other) {
        Some(true) => Look::Keep,
        Some(false) => match replacement(clause, other, trail, starts, node) {
            Some(l) => Look::Move(l),
            None => Look::Conflict,
        },
        None => match replacement(clause, other, trail, starts, node) {
            Some(l) => Look::Move(l),
            None => Look::Force,
        },
    }
}

/// The list of a clause that watches nothing.
fn unwatched_list(clause: &[Lit]) -> u32
    ensures { IsAside clause.now result }
{
    if clause.is_empty() {
        return EMPTY;
    }
    let first = clause[0];
    for l in clause {
        if *l != first {
            return WAITING;
        }
    }
    SINGLE
}

/// The lists in which the two nodes of the clause are to stand: those of two different literals
/// that aren't false, if there are two.
pub(crate) fn initial_watches(clause: &[Lit], trail: &Trail) -> (u32, u32)
    requires { IsWithin trail.now.vars clause.now }
    ensures { AreHome trail.now.lits clause.now result.0 result.1 }
{
    let list = unwatched_list(clause);
    match non_false(clause, trail) {
        Left::Two(a, b) => (list_of(a), list_of(b)),
        Left::One(_) => (list, list),
        Left::Nothing => (list, list),
    }
}
