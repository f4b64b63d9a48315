// The limit on what a file has.

/// The greatest number that a header may have, and the greatest sum of the justice properties' sizes: so the greatest
/// variable, and the most lines of a section.
pub const MOST_ITEMS: u64 = 1_048_576;
