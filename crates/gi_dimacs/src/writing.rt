// The writers.
ghost use Rattle.std.specs.Prelude.{◌≡◌, ◌++◌, ◌∷◌, [], ◌/◌, ◌%◌, List, ℕ, length, OnOk, IfOk, decimal};
ghost use Rattle.gi_dimacs.specs.declared.cnf.Cnf.{Cnf};
ghost use Rattle.gi_dimacs.specs.declared.cnf.Icnf.{Icnf};
ghost use Rattle.gi_dimacs.specs.Literals.{literal_text};
ghost use Rattle.gi_dimacs.specs.Relation.{IsCnf, IsIcnf};
ghost use Rattle.gi_dimacs.specs.Texts.{clause_text, item_text, cnf_text, icnf_text, IsGood, IsGoodIcnf};

use crate::cnf::{Cnf, Icnf};
use crate::items::Item;
use gi_lit::Lit;
use gi_text::Bytes;
use itoa::Buffer;
use std::alloc::{AllocError, Global};

fn put_number(out: &mut Bytes, n: u64) -> Result<(), AllocError>
    ensures { OnOk result (out.new ≡ out.old ++ decimal n) }
{
    let mut buffer = Buffer::new();
    out.extend(buffer.format(n).as_bytes())
}

#[tactic(auto, unfolding(crate::specs::Literals::literal_text))]
fn put_literal(out: &mut Bytes, l: Lit) -> Result<(), AllocError>
    ensures { OnOk result (out.new ≡ out.old ++ literal_text l) }
{
    if l.code() % 2 == 0 {
        return put_number(out, (l.code() / 2) as u64);
    }
    out.extend(b"-")?;
    put_number(out, (l.code() / 2) as u64)
}

fn put_clause(out: &mut Bytes, clause: &[Lit]) -> Result<(), AllocError>
    ensures { OnOk result (out.new ≡ out.old ++ clause_text clause.now) }
{
    for l in clause {
        put_literal(out, *l)?;
        out.extend(b" ")?;
    }
    out.extend(b"0")
}

fn put_item(out: &mut Bytes, item: &Item) -> Result<(), AllocError>
    ensures { OnOk result (out.new ≡ out.old ++ item_text item.now) }
{
    match item {
        Item::Clause(clause) => put_clause(out, clause.as_slice()),
        Item::Ask(lits) => {
            out.extend(b"a ")?;
            put_clause(out, lits.as_slice())
        }
    }
}

#[tactic(auto, unfolding(crate::specs::Texts::cnf_text))]
fn text_of_cnf(alloc: Global, cnf: &Cnf) -> Result<Bytes, AllocError>
    ensures { IfOk result (λ bytes. bytes ≡ cnf_text cnf.now) }
{
    let mut out = Bytes::new(alloc);
    out.extend(b"p cnf ")?;
    put_number(&mut out, cnf.vars as u64)?;
    out.extend(b" ")?;
    put_number(&mut out, cnf.clauses.len() as u64)?;
    out.extend(b"\n")?;
    for clause in cnf.clauses.as_slice() {
        put_clause(&mut out, clause.as_slice())?;
        out.extend(b"\n")?;
    }
    Ok(out)
}

#[tactic(auto, unfolding(crate::specs::Texts::icnf_text))]
fn text_of_icnf(alloc: Global, icnf: &Icnf) -> Result<Bytes, AllocError>
    ensures { IfOk result (λ bytes. bytes ≡ icnf_text icnf.now) }
{
    let mut out = Bytes::new(alloc);
    out.extend(b"p inccnf\n")?;
    for item in icnf.items.as_slice() {
        put_item(&mut out, item)?;
        out.extend(b"\n")?;
    }
    Ok(out)
}

/// The canonical text in DIMACS CNF: a header with the value's variables and the true count of
/// clauses, then a line for each clause. A value that some bytes have is read back from it.
pub fn write_cnf(alloc: Global, cnf: &Cnf) -> Result<Bytes, AllocError>
    ensures text { IfOk result (λ bytes. bytes ≡ cnf_text cnf.now) }
    ensures read { IfOk result (λ bytes. IsGood cnf.now → IsCnf cnf.now bytes) }
    ensures again { IfOk result
        (λ bytes. IsGood cnf.now → (v : Cnf) → IsCnf v bytes → cnf_text v ≡ bytes) }
{
    let bytes = text_of_cnf(alloc, cnf)?;
    Ok(bytes)
}

/// The canonical text in iCNF: the header, then a line for each item in order. A value that some
/// bytes have is read back from it.
pub fn write_icnf(alloc: Global, icnf: &Icnf) -> Result<Bytes, AllocError>
    ensures text { IfOk result (λ bytes. bytes ≡ icnf_text icnf.now) }
    ensures read { IfOk result (λ bytes. IsGoodIcnf icnf.now → IsIcnf icnf.now bytes) }
    ensures again { IfOk result
        (λ bytes. IsGoodIcnf icnf.now → (v : Icnf) → IsIcnf v bytes → icnf_text v ≡ bytes) }
{
    let bytes = text_of_icnf(alloc, icnf)?;
    Ok(bytes)
}
