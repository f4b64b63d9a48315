//! How much a machine holds.

/// The most clauses, plain ones and those under guards together.
pub const MAX_CLAUSES: u64 = 4_194_304;

/// The most literals of clauses, as given: those of a clause under guards, and one for each guard
/// after the first.
pub const MAX_LITS: u64 = 67_108_864;

/// The most pending assumptions.
pub const MAX_PENDING: usize = 1_048_576;

/// The most open scopes.
pub const MAX_SCOPES: usize = 65_536;

/// The most bytes that a payload has.
pub const MAX_PAYLOAD: usize = 16_777_216;

/// The most solves.
pub const MAX_SOLVES: u64 = 72_057_594_037_927_936;

/// The most clauses that a slice of work learns.
pub const MAX_NEWS: u32 = 1_024;

/// The most learnt clauses with which a solve starts without a trim.
pub const MAX_UNTRIMMED: u64 = 20_000;
