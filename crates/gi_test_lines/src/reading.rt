use gi_model::Call;
use gi_text::Bytes;
use gi_wire::{CallRead, read_call};
use std::alloc::Global;

/// The load of a file, of which `/` stands for LF.
fn load(alloc: Global, text: &str) -> Option<Call> {
    let mut bytes = Bytes::new(alloc);
    for b in text.as_bytes() {
        bytes.push(if *b == b'/' { b'\n' } else { *b }).ok()?;
    }
    Some(Call::LoadCnf(bytes))
}

/// The call of a line, if it is one and there is memory.
pub(crate) fn call(alloc: Global, line: &str) -> Option<Call> {
    if line == "shut" {
        return Some(Call::Shut);
    }
    if line.starts_with("p ") {
        return load(alloc, line);
    }
    match read_call(alloc, line.as_bytes()) {
        CallRead::Call(call) => Some(call),
        _ => None,
    }
}
