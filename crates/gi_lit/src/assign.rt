ghost use Rattle.std.specs.Prelude.{◌≡◌, ◌-◌, ◌/◌, ◌≤◌, ◌<◌, ◌^◌, length, replicate, false, All, IfOk, slice_index_or, slice_set};
ghost use Rattle.gi_lit.specs.Truth.{true_in, clause_true};

use crate::lit::Lit;
use crate::var::Var;
use std::alloc::{AllocError, Global};
use std::marker::Model;

/// An assignment: a truth value for each variable from 1 to `len`. Contracts see the list of the
/// values, that of variable v at place v - 1.
#[derive(Debug, Drop)]
pub struct Assign {
    values: Vec<bool>,
}

impl Model for Assign {
    ghost use Rattle.std.specs.Prelude.{Bool, List, length, ◌<◌, ◌^◌};

    ghost Value = { List Bool };

    ghost view = { λ a. a.values.items };

    ghost invariant = { λ a. length a.values.items < 2 ^ 32 };
}

impl Assign {
    /// The assignment that makes each of n variables false.
    pub fn falses(alloc: Global, n: u32) -> Result<Assign, AllocError>
        ensures { IfOk result (λ a. a ≡ replicate n false) }
    {
        let values = vec![in alloc; false; n as usize]?;
        Ok(Assign { values })
    }

    /// The assignment of a vector's values. Takes no memory.
    pub fn from_vec(values: Vec<bool>) -> Assign
        requires { length values.items < 2 ^ 32 }
        ensures { result ≡ values.items }
    {
        Assign { values }
    }

    /// The vector of its values. Takes no memory.
    pub fn into_vec(self) -> Vec<bool>
        ensures { result.items ≡ self }
    {
        let Assign { values } = self;
        values
    }

    /// How many variables have a value.
    pub fn len(&self) -> u32
        ensures { result ≡ length self.now }
    {
        self.values.len() as u32
    }

    /// The values in order, that of variable 1 first.
    pub fn as_slice(&self) -> &[bool]
        ensures { result.now ≡ self.now }
    {
        self.values.as_slice()
    }

    /// Gives a variable a value.
    pub fn set(&mut self, v: Var, value: bool)
        requires { v ≤ length self.old }
        ensures { self.new ≡ slice_set self.old (v - 1) value }
    {
        let place = (v.index() - 1) as usize;
        self.values[place] = value;
    }

    /// The value of a variable.
    pub fn get(&self, v: Var) -> bool
        requires { v ≤ length self.now }
        ensures { result ≡ slice_index_or self.now (v - 1) false }
    {
        let place = (v.index() - 1) as usize;
        self.values[place]
    }

    /// Whether it makes a literal true.
    #[tactic(auto, unfolding(crate::specs::Truth::true_in))]
    pub fn makes_true(&self, l: Lit) -> bool
        requires { l / 2 ≤ length self.now }
        ensures { result ≡ true_in self.now l }
    {
        self.get(l.var()) != l.is_negative()
    }

    /// Whether it satisfies a clause, that is, makes one of its literals true. The empty clause is
    /// satisfied by none.
    pub fn satisfies(&self, c: &[Lit]) -> bool
        requires { All (λ l. l / 2 ≤ length self.now) c.now }
        ensures { result ≡ clause_true self.now c.now }
    {
        c.iter().any(|l| self.makes_true(*l))
    }
}
