// The links that rows are run over.
ghost use Rattle.std.specs.Prelude.{◌≡◌, ◌<◌, IfOk};
ghost use Rattle.std.specs.List.{All};

use crate::row::Row;
use gi_outside::MemoryLink;
use gi_text::Bytes;
use std::alloc::{AllocError, Global};

/// The link of a row.
pub fn user_of(alloc: Global, row: &Row<'_>) -> Result<MemoryLink, AllocError> {
    let input = input(alloc, row)?;
    let cuts = cuts(alloc, row.setting.pieces)?;
    let reads = vec![in alloc; row.setting.read]?;
    let writes = vec![in alloc; row.setting.write]?;
    Ok(MemoryLink::new(alloc, input, cuts, reads, writes))
}

/// A link that gives this input at once, and never fails.
pub fn plain_user(alloc: Global, input: Bytes) -> MemoryLink {
    let (cuts, reads, writes) = (Vec::new(alloc), Vec::new(alloc), Vec::new(alloc));
    MemoryLink::new(alloc, input, cuts, reads, writes)
}

// What a row's link gives: its input, behind a long line where there is one.
fn input(alloc: Global, row: &Row<'_>) -> Result<Bytes, AllocError>
    ensures { row.now.setting.long ≡ 0 → IfOk result (λ input. input ≡ row.now.input.now) }
{
    let mut input = Bytes::new(alloc);
    if row.setting.long > 0 {
        input.extend(vec![in alloc; b'x'; row.setting.long as usize]?.as_slice())?;
        input.push(b'\n')?;
    }
    input.extend(row.input.as_bytes())?;
    Ok(input)
}

// The lengths of the first 64 reads, where they are told.
fn cuts(alloc: Global, pieces: u32) -> Result<Vec<u32>, AllocError>
    ensures { IfOk result (λ cuts. All (λ c. 0 < c) cuts.items) }
{
    if pieces > 0 {
        vec![in alloc; pieces; 64]
    } else {
        Ok(Vec::new(alloc))
    }
}
