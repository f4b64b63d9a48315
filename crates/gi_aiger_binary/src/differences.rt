// Differences in groups of seven bits.
ghost use Rattle.std.specs.Prelude.{◌≡◌, ◌++◌, OnOk};
ghost use Rattle.gi_aiger_binary.specs.Differences.{groups_of};

use gi_text::Bytes;
use std::alloc::AllocError;

/// A difference, lowest group first, in its shortest spelling.
pub(crate) fn put_difference(out: &mut Bytes, difference: u32) -> Result<(), AllocError>
    ensures { OnOk result (out.new ≡ out.old ++ groups_of difference) }
{
    let mut rest = difference;
    'groups: while rest >= 128 {
        out.extend(&[(rest % 128) as u8 + 128])?;
        rest /= 128;
    }
    out.extend(&[rest as u8])
}
