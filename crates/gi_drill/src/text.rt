// The lines of the script's calls.
ghost use Rattle.std.specs.Prelude.{◌≡◌, ◌++◌, ◌∷◌, [], ◌*◌, ◌+◌, ◌≤◌, ◌<◌, OnOk, decimal};
ghost use Rattle.gi_lit.specs.Literals.{IsVariable};
ghost use Rattle.gi_model.specs.declared.calls.Call.TheVariants.{Add, Under};
ghost use Rattle.gi_wire.specs.Literals.{list_text};
ghost use Rattle.gi_drill.specs.Script.{guarding, lines_text, line_text, round};

use gi_lit::{Lit, Var};
use gi_text::{Bytes, Digits};
use std::alloc::AllocError;

// Adds each literal with a space behind it, and then a 0.
fn put_literals(out: &mut Bytes, literals: &[Lit]) -> Result<(), AllocError>
    ensures { OnOk result (out.new ≡ out.old ++ list_text literals.now) }
{
    for literal in literals {
        out.extend(Digits::of(i128::from(literal.to_dimacs())).as_slice())?;
        out.extend(b" ")?;
    }
    out.extend(b"0")
}

/// Adds the line of a clause.
#[tactic(auto, unfolding(crate::specs::Script::call_text))]
pub(crate) fn put_add(out: &mut Bytes, clause: &[Lit]) -> Result<(), AllocError>
    ensures { OnOk result (out.new ≡ out.old ++ line_text (Add clause.now)) }
{
    out.extend(b"add ")?;
    put_literals(out, clause)?;
    out.extend(b"\n")
}

// Adds the line of a clause of one literal under the guard.
fn put_under(out: &mut Bytes, literal: Lit) -> Result<(), AllocError>
    ensures { OnOk result (out.new ≡ out.old ++ line_text (Under guarding (literal ∷ []))) }
{
    out.extend(b"under 151 ")?;
    put_literals(out, &[literal])?;
    out.extend(b"\n")
}

/// Adds the lines of a round over a variable.
pub(crate) fn put_round(out: &mut Bytes, v: Var) -> Result<(), AllocError>
    ensures { OnOk result (out.new ≡ out.old ++ lines_text (round v)) }
{
    out.extend(b"guard\n")?;
    put_under(out, v.positive())?;
    put_under(out, v.negative())?;
    out.extend(b"assume 151 0\nsolve\nwait\ndrop 151\n")
}
