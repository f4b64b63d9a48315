// What a file of either format holds.
ghost use Rattle.std.specs.Prelude.{◌≡◌, OnOk};
ghost use Rattle.gi_dimacs.specs.Content.{nothing, format_of, with_item};
ghost use Rattle.gi_dimacs.specs.declared.items.Item.TheVariants as items;

use crate::items::{Item, Items};
use gi_lit::{Clause, Clauses, Lits};
use std::alloc::{AllocError, Global};

/// Which of the two formats a file has.
#[derive(Clone, Copy, Debug, PartialEq, Eq)]
pub enum Format {
    Cnf,
    Icnf,
}

/// The clauses of a CNF file, or the items of an iCNF file.
#[derive(Debug, Drop)]
pub enum Content {
    Clauses(Clauses),
    Items(Items),
}

pub fn nothing(alloc: Global, format: Format) -> Content
    ensures { result ≡ nothing format }
{
    match format {
        Format::Cnf => Content::Clauses(Clauses::new(alloc)),
        Format::Icnf => Content::Items(Items::new(alloc)),
    }
}

pub fn format_of(content: &Content) -> Format
    ensures { result ≡ format_of content.now }
{
    match content {
        Content::Clauses(_) => Format::Cnf,
        Content::Items(_) => Format::Icnf,
    }
}

pub fn add_clause(content: &mut Content, clause: Clause) -> Result<(), AllocError>
    ensures { OnOk result (content.new ≡ with_item content.old (items.Clause clause)) }
{
    match content {
        Content::Clauses(clauses) => clauses.push(clause),
        Content::Items(items) => items.push(Item::Clause(clause)),
    }
}

/// A CNF file holds no asks.
pub fn add_ask(content: &mut Content, lits: Lits) -> Result<(), AllocError>
    ensures { OnOk result (content.new ≡ with_item content.old (items.Ask lits)) }
{
    match content {
        Content::Clauses(_) => Ok(()),
        Content::Items(items) => items.push(Item::Ask(lits)),
    }
}
