// What a seat knows. Contracts speak of these types, and no value of them is made.
use std::collections::LinkedList;

/// What one turn adds to the history.
pub struct Entry {
    /// The number of the seat that had the turn.
    pub by: u64,
    /// The phase that the turn left, below 8.
    pub phase: u64,
    /// The mark that the turn saw and carried out, or 0.
    pub mark: u64,
    /// What the turn did, as lists of numbers.
    pub told: LinkedList<LinkedList<u64>>,
}

/// What a seat knows.
pub struct View {
    /// The phase before the first entry.
    pub opened: u64,
    /// The seat was joined to another.
    pub spent: bool,
    pub number: u64,
    /// How often the seat has split another off.
    pub splits: u64,
    /// Its own number, and those of the seats that it took in.
    pub held: LinkedList<u64>,
    /// The numbers of the seats that were split off it, or off those that it took in.
    pub kin: LinkedList<u64>,
    /// How many turns it may still draw.
    pub left: u64,
    /// What it drew, until it leaves.
    pub ticket: Option<u64>,
    /// It has the turn.
    pub turn: bool,
    /// The beginning of the history that it has seen.
    pub seen: LinkedList<Entry>,
    /// The numbers and the histories of the two that have just been joined to it.
    pub merged: LinkedList<(LinkedList<u64>, LinkedList<Entry>)>,
    /// A length and a phase for each look.
    pub glances: LinkedList<(u64, u64)>,
    /// Each mark that it asked, with the length of the history that it had seen then.
    pub asked: LinkedList<(u64, u64)>,
    /// Each mark that it saw.
    pub marks: LinkedList<u64>,
    /// Those that it saw since it drew its last ticket.
    pub fresh: LinkedList<u64>,
    /// How often it looked for a mark.
    pub sees: u64,
}
