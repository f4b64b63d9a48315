// What files say.
use crate::items::Items;
use gi_lit::Clauses;

/// What a CNF file says.
#[derive(Debug, Drop)]
pub struct Cnf {
    /// The greatest variable that the header or a clause names.
    pub vars: u32,
    /// The clauses, in the file's order.
    pub clauses: Clauses,
}

/// What an iCNF file says.
#[derive(Debug, Drop)]
pub struct Icnf {
    /// The greatest variable that a clause or an ask names, 0 if none does.
    pub vars: u32,
    /// The clauses and asks, in the file's order.
    pub items: Items,
}
