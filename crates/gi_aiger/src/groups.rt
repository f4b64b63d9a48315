// Differences in groups of seven bits.
ghost use Rattle.std.specs.Prelude.{◌≡◌, ◌∷◌, [], length, min, slice_index};
ghost use Rattle.gi_aiger.specs.Groups.{difference_of, is_longer, value_of};

use crate::fields::TOO_BIG;

// Whether a shorter spelling would do.
fn is_longer(groups: &[u8]) -> bool
    ensures { result ≡ is_longer groups.now }
{
    groups.len() > 1 && groups[groups.len() - 1] == 0
}

// The number that groups spell, up to `TOO_BIG`.
#[tactic(auto, using(crate::proofs::Grouping::starts, crate::proofs::Grouping::goes_on, crate::proofs::Grouping::ends))]
fn value_of(groups: &[u8]) -> u64
    ensures { result ≡ min (value_of groups.now) 4294967296 }
{
    let mut value = 0;
    for i in 0..groups.len() {
        let group = groups[groups.len() - 1 - i];
        value = (u64::from(group % 128) + 128 * value).min(TOO_BIG);
    }
    value
}

/// The difference that groups spell, lowest first. None exactly where a shorter spelling would do, or it is 2^32 or more.
pub fn read_difference(groups: &[u8]) -> Option<u32>
    ensures { result ≡ difference_of groups.now }
{
    if is_longer(groups) {
        return None;
    }
    let value = value_of(groups);
    if value < TOO_BIG {
        Some(value as u32)
    } else {
        None
    }
}
