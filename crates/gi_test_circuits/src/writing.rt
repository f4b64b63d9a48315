ghost use Rattle.std.specs.Prelude.{IfOk, IfSome};
ghost use Rattle.gi_aiger_binary.specs.Sound.{IsReadable, IsWritable};

use gi_aiger::{Aig, AigRead, AigReader, said_is_good, write_ascii};
use gi_aiger_binary::{good_is_writable, numbered_is_good, renumber, write_binary};
use gi_text::Bytes;
use std::alloc::{AllocError, Global};

// A file, the binary form of what it says, and that value numbered anew in the ASCII form.
const ROWS: [(&[u8], &[u8], &[u8]); 5] = [
    (
        b"aag 5 1 0 1 2\n2\n10\n10 8 3\n8 2 2\n",
        b"aig 3 1 0 1 2\n6\n\x02\x00\x02\x01",
        b"aag 3 1 0 1 2\n2\n6\n4 2 2\n6 4 3\n",
    ),
    (
        b"aag 3 2 0 1 1\n2\n4\n6\n6 2 4\n",
        b"aig 3 2 0 1 1\n6\n\x02\x02",
        b"aag 3 2 0 1 1\n2\n4\n6\n6 4 2\n",
    ),
    (
        b"aag 0 0 0 1 0\n1\ncn x\n",
        b"aig 0 0 0 1 0\n1\nc\nn x\n",
        b"aag 0 0 0 1 0\n1\nc\nn x\n",
    ),
    (
        b"aag 7 2 1 2 4\n2\n4\n6 8\n6\n7\n8 4 10\n10 13 15\n12 2 6\n14 3 7\ni0 enable\ni1 reset\no0 Q\no1 !Q\n",
        b"aig 7 2 1 2 4\n14\n6\n7\n\x02\x04\x03\x04\x01\x02\x02\x08i0 enable\ni1 reset\no0 Q\no1 !Q\n",
        b"aag 7 2 1 2 4\n2\n4\n6 14\n6\n7\n8 6 2\n10 7 3\n12 11 9\n14 12 4\ni0 enable\ni1 reset\no0 Q\no1 !Q\n",
    ),
    (
        b"aag 2 0 1 2 0 1 1 1 1\n4 5 4\n4\n5\n4\n5\n1\n4\n1\nl0 x y\nc\nhi",
        b"aig 1 0 1 2 0 1 1 1 1\n3 2\n2\n3\n2\n3\n1\n2\n1\nl0 x y\nc\nhi",
        b"aag 1 0 1 2 0 1 1 1 1\n2 3 2\n2\n3\n2\n3\n1\n2\n1\nl0 x y\nc\nhi",
    ),
];

// The value that a file says, if it says one.
fn value_of(alloc: Global, text: &[u8]) -> Result<Option<Aig>, AllocError>
    ensures { IfOk result (λ value. IfSome value (λ v. IsWritable v × IsReadable v)) }
{
    said_is_good();
    good_is_writable();
    let mut reader = AigReader::new(alloc);
    reader.feed(text)?;
    match reader.finish() {
        AigRead::Aig(aig) => Ok(Some(aig)),
        AigRead::Fault(_) => Ok(None),
        AigRead::NoMemory => Err(AllocError),
    }
}

fn binary_of(alloc: Global, text: &[u8]) -> Result<Option<Bytes>, AllocError> {
    match value_of(alloc, text)? {
        None => Ok(None),
        Some(aig) => Ok(Some(write_binary(alloc, &aig)?)),
    }
}

// That value, numbered anew: it can be numbered anew again.
fn numbered(alloc: Global, text: &[u8]) -> Result<Option<Aig>, AllocError>
    ensures { IfOk result (λ value. IfSome value IsWritable) }
{
    numbered_is_good();
    good_is_writable();
    match value_of(alloc, text)? {
        None => Ok(None),
        Some(aig) => Ok(Some(renumber(alloc, &aig)?)),
    }
}

fn numbered_binary(alloc: Global, text: &[u8]) -> Result<Option<Bytes>, AllocError> {
    match numbered(alloc, text)? {
        None => Ok(None),
        Some(aig) => Ok(Some(write_binary(alloc, &aig)?)),
    }
}

fn numbered_ascii(alloc: Global, text: &[u8]) -> Result<Option<Bytes>, AllocError> {
    match numbered(alloc, text)? {
        None => Ok(None),
        Some(aig) => Ok(Some(write_ascii(alloc, &aig)?)),
    }
}

fn are_bytes(found: Option<Bytes>, want: &[u8]) -> bool {
    match found {
        None => false,
        Some(bytes) => bytes.as_slice() == want,
    }
}

// Whether a file is written so, whether that is written so again, and so of the value numbered
// anew.
fn is_row(alloc: Global, text: &[u8], binary: &[u8], ascii: &[u8]) -> Result<bool, AllocError> {
    let written = are_bytes(binary_of(alloc, text)?, binary);
    let again = are_bytes(binary_of(alloc, binary)?, binary);
    let numbered = are_bytes(numbered_binary(alloc, text)?, binary);
    let as_text = are_bytes(numbered_ascii(alloc, text)?, ascii);
    Ok(written && again && numbered && as_text)
}

#[test]
fn writes_and_reads_the_rows(rt: HostRuntime) {
    for (text, binary, ascii) in ROWS {
        assert!(rt; is_row(rt.alloc(), text, binary, ascii) == Ok(true));
    }
}

// Files with a difference of 127, 128 and 300.
const SPELLED: [&[u8]; 3] = [
    b"aig 65 64 0 0 1\n\x7f\x01",
    b"aig 65 64 0 0 1\n\x80\x01\x00",
    b"aig 151 150 0 0 1\n\xac\x02\x00",
];

fn is_again(alloc: Global, file: &[u8]) -> Result<bool, AllocError> {
    Ok(are_bytes(binary_of(alloc, file)?, file))
}

#[test]
fn differences_in_their_shortest_spelling(rt: HostRuntime) {
    for file in SPELLED {
        assert!(rt; is_again(rt.alloc(), file) == Ok(true));
    }
}
