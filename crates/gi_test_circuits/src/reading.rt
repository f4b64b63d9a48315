// What the reader answers, and how it is written again in the ASCII form.
use gi_aiger::{Aig, AigCode, AigFault, AigRead, AigReader, write_ascii};
use std::alloc::{AllocError, Global};

// A file, and its fault as code, line and gate; or of its value the counts of outputs, gates and
// symbols, and the length of its comment and one more, 0 where there is none. Each number is a
// digit. `/` stands for LF, `~` for a tab, `^` for CR, `$` for the byte 80 and
// `@` for 82.
const TABLE: &str = "|End 1 0
/|Header 1 0
aag|Header 1 0
aag 0 0 0 0|Header 1 0
aag 0 0 0 0 0 0 0 0 0 0|Header 1 0
aag  0 0 0 0 0|Header 1 0
 aag 0 0 0 0 0|Header 1 0
aag 0 0 0 0 0 |Header 1 0
aag 0 0 0 0 0^/|Header 1 0
aag~0 0 0 0 0|Header 1 0
aag 0 0 -1 0 0|Header 1 0
aag 0 0 +1 0 0|Header 1 0
AAG 0 0 0 0 0|Header 1 0
aag 1 1 1 0 0|Header 1 0
aig 2 1 0 0 0|Header 1 0
aig 1048577 0 0 0 0|Header 1 0
aag 1048577 0 0 0 0|Limit 1 0
aag 0 0 0 1048577 0|Limit 1 0
aag 99999999999 0 0 0 0|Limit 1 0
aag 0 0 0 0 0 0 0 0 1048577|Limit 1 0
aag 1048576 1048576 0 0 0|End 2 0
aag 1 1 0 0 0/|End 2 0
aag 1 1 0 0 0//|Count 2 0
aag 1 1 0 0 0/2 2|Count 2 0
aag 1 1 0 0 0/ 2|Count 2 0
aag 1 1 0 0 0/2 |Count 2 0
aag 1 1 0 0 0/x|Count 2 0
aag 1 1 0 0 0/-2|Count 2 0
aag 1 1 0 0 0/0|Literal 2 0
aag 1 1 0 0 0/3|Literal 2 0
aag 1 1 0 0 0/4|Literal 2 0
aag 2 2 0 0 0/2/2|Defined 3 0
aag 1 0 1 0 0/2|Count 2 0
aag 1 0 1 0 0/2 0 0 0|Count 2 0
aag 1 0 1 0 0/2 4|Literal 2 0
aag 1 0 1 0 0/2 0 3|Literal 2 0
aag 1 0 1 0 0/2 0 4|Literal 2 0
aag 2 1 0 1 0/2/4|Undefined 3 0
aag 2 0 1 0 0/2 4/|Undefined 2 0
aag 3 1 0 1 1/2/6/4 2 2|Undefined 4 0
aag 2 1 0 0 1/2/2 2 2|Defined 3 0
aag 0 0 0 0 0 0 0 1/x|Count 2 0
aag 0 0 0 0 0 0 0 1/1048577|Limit 2 0
aag 0 0 0 0 0 0 0 2/1048576/1|Limit 3 0
aag 0 0 0 0 0 0 0 1/2/0|End 4 0
aag 2 0 0 0 2/2 4 4/4 2 2|Cycle 3 0
aag 1 0 0 0 1/2 2 2/x|Cycle 2 0
aag 2 0 0 0 2/2 4 4/4 2|Count 3 0
aag 0 0 0 0 0/x|Symbol 2 0
aag 0 0 0 0 0//|Symbol 2 0
aag 1 1 0 0 0/2/i1 a|Symbol 3 0
aag 1 1 0 0 0/2/i0|Symbol 3 0
aag 1 1 0 0 0/2/i0 |Symbol 3 0
aag 1 1 0 0 0/2/i 0 a|Symbol 3 0
aag 1 1 0 0 0/2/x0 a|Symbol 3 0
aag 1 1 0 0 0/2/i0 a/i00 b|Symbol 4 0
aag 0 0 0 1 0/1//c|Symbol 3 0
aag 0 0 0 1 0/1/c0 x|Symbol 3 0
aig 3 2 0 0 1/$|End 2 1
aig 3 2 0 0 1|End 2 1
aig 3 2 0 0 1/\x02|End 2 1
aig 2 0 0 0 2/\x01\x01|End 2 2
aig 1 0 0 0 1/$$$$\x10|Literal 2 1
aig 1 0 0 0 1/$\x00|Literal 2 1
aig 3 2 0 1 1/6/@\x00\x02|Literal 3 1
aig 3 2 0 0 1/\x00\x00|Order 2 1
aig 3 2 0 0 1/\x07\x00|Order 2 1
aig 3 2 0 0 1/\x02\x05|Order 2 1
aig 3 2 0 0 1/\x02\x02x/|Symbol 2 0
aig 3 2 0 0 1/\x02\x02i0 x/i0 y|Symbol 3 0
aig 2 0 1 0 1/6/|Literal 2 0
aig 2 0 1 0 1/2 3 0|Count 2 0
aag 0 0 0 0 0|Value 0 0 0 0
aag 00 0 0 0 0/|Value 0 0 0 0
aag 0 0 0 1 0/1|Value 1 0 0 0
aag 0 0 0 1 0/1/c|Value 1 0 0 1
aag 0 0 0 1 0/1/cn x/|Value 1 0 0 5
aag 0 0 0 1 0/1/c/a/b|Value 1 0 0 4
aag 0 0 0 1 0/1/c//|Value 1 0 0 2
aag 5 1 0 1 2/2/10/10 8 3/8 2 2/|Value 1 2 0 0
aag 3 2 0 1 1/2/4/6/6 2 4|Value 1 1 0 0
aig 3 2 0 1 1/6/\x02\x02|Value 1 1 0 0
aig 3 1 0 1 2/6/\x02\x00\x02\x01o0 out/|Value 1 2 1 0
aag 1 0 1 0 0 0 1/2 3 2/2/c0 holds/c/|Value 0 0 1 1
aig 1 0 1 0 0/0 2/l0 state|Value 0 0 1 0
aig 40000 39999 0 0 1/\x02\x02|Value 0 1 0 0";

// The bytes that a cell of the table stands for.
fn bytes_of(alloc: Global, cell: &str) -> Result<Vec<u8>, AllocError> {
    let mut bytes = Vec::new(alloc);
    for b in cell.as_bytes() {
        bytes.push(match *b {
            b'/' => b'\n',
            b'~' => b'\t',
            b'^' => b'\r',
            b'$' => 128,
            b'@' => 130,
            other => other,
        })?;
    }
    Ok(bytes)
}

// The word of the table for a code.
fn word_of(code: AigCode) -> &'static str {
    match code {
        AigCode::Header => "Header",
        AigCode::Limit => "Limit",
        AigCode::Count => "Count",
        AigCode::Literal => "Literal",
        AigCode::Defined => "Defined",
        AigCode::Undefined => "Undefined",
        AigCode::Order => "Order",
        AigCode::Cycle => "Cycle",
        AigCode::Symbol => "Symbol",
        AigCode::End => "End",
    }
}

fn is_digit(cell: &str, number: u64) -> bool {
    number < 10 && cell.as_bytes() == [b'0' + number as u8].as_slice()
}

// Whether a cell of the table is this word and these numbers.
fn is_cell(cell: &str, word: &str, numbers: &[u64]) -> bool {
    let mut parts = cell.split(' ');
    if parts.next().unwrap_or("") != word {
        return false;
    }
    for number in numbers {
        if !is_digit(parts.next().unwrap_or(""), *number) {
            return false;
        }
    }
    parts.next().is_none()
}

fn counts_of(aig: &Aig) -> [u64; 4] {
    let comment = match &aig.comment {
        None => 0,
        Some(bytes) => bytes.as_slice().len() as u64 + 1,
    };
    let symbols = aig.symbols.len() as u64;
    [
        aig.outs.len() as u64,
        aig.gates.len() as u64,
        symbols,
        comment,
    ]
}

fn is_fault(cell: &str, fault: AigFault) -> bool {
    is_cell(
        cell,
        word_of(fault.code),
        &[fault.line, u64::from(fault.gate)],
    )
}

fn is_said(cell: &str, read: AigRead) -> bool {
    match read {
        AigRead::Aig(aig) => is_cell(cell, "Value", &counts_of(&aig)),
        AigRead::Fault(fault) => is_fault(cell, fault),
        AigRead::NoMemory => false,
    }
}

// What a file is read as, in pieces of so many bytes.
fn read(alloc: Global, text: &[u8], size: usize) -> Result<AigRead, AllocError> {
    let mut reader = AigReader::new(alloc);
    for piece in text.chunks(size.max(1)) {
        reader.feed(piece)?;
    }
    Ok(reader.finish())
}

fn is_row(alloc: Global, row: &str) -> Result<bool, AllocError> {
    let mut cells = row.split('|');
    let text = bytes_of(alloc, cells.next().unwrap_or(""))?;
    let want = cells.next().unwrap_or("");
    let whole = is_said(want, read(alloc, text.as_slice(), 1000)?);
    let threes = is_said(want, read(alloc, text.as_slice(), 3)?);
    let bytes = is_said(want, read(alloc, text.as_slice(), 1)?);
    Ok(whole && threes && bytes)
}

#[test]
fn reads_the_table(rt: HostRuntime) {
    for row in TABLE.split('\n') {
        assert!(rt; is_row(rt.alloc(), row) == Ok(true), "of {row}");
    }
}

// A file, and how its value is written in the ASCII form, in the same spelling.
const AGAIN: &str = "aag 0 0 0 1 0/1|aag 0 0 0 1 0/1/
aag 0 0 0 1 0/1/cn x/|aag 0 0 0 1 0/1/c/n x/
aag 0 0 0 1 0/1/c|aag 0 0 0 1 0/1/c/
aag 02 0 2 0 0 0 0 0 0/2 4 0/04 3 4|aag 2 0 2 0 0/2 4/4 3 4/
aag 1 1 0 0 0 0 1 1 0/2/2/2/3/2/i0 a b/c0 c/|aag 1 1 0 0 0 0 1 1/2/2/2/3/2/i0 a b/c0 c/
aig 3 1 0 1 2/6/\x02\x00\x02\x01|aag 3 1 0 1 2/2/6/4 2 2/6 4 3/";

fn is_written(alloc: Global, read: AigRead, want: &[u8]) -> Result<bool, AllocError> {
    match read {
        AigRead::Aig(aig) => Ok(write_ascii(alloc, &aig)?.as_slice() == want),
        AigRead::Fault(_) => Ok(false),
        AigRead::NoMemory => Ok(false),
    }
}

fn is_again(alloc: Global, row: &str) -> Result<bool, AllocError> {
    let mut cells = row.split('|');
    let text = bytes_of(alloc, cells.next().unwrap_or(""))?;
    let want = bytes_of(alloc, cells.next().unwrap_or(""))?;
    is_written(alloc, read(alloc, text.as_slice(), 1000)?, want.as_slice())
}

#[test]
fn writes_again(rt: HostRuntime) {
    for row in AGAIN.split('\n') {
        assert!(rt; is_again(rt.alloc(), row) == Ok(true), "of {row}");
    }
}

// Whether the first of each list is that of the file below.
fn has_items(aig: &Aig) -> bool {
    let input = aig.inputs.get(0).map(|edge| edge.code());
    let next = aig.latches.get(0).map(|latch| latch.next.code());
    let operand = aig.gates.get(0).map(|gate| gate.rhs0.code());
    let size = aig.justice.get(0).map(|list| list.len());
    let place = aig.symbols.get(0).map(|symbol| symbol.place);
    input == Some(2)
        && next == Some(3)
        && operand == Some(5)
        && size == Some(1)
        && place == Some(1)
        && aig.symbols.get(1).is_none()
}

fn tells_its_items(alloc: Global) -> Result<bool, AllocError> {
    let file = b"aag 3 1 1 2 1 0 0 1\n2\n4 3\n6\n1\n1\n4\n6 5 2\no1 x\n";
    match read(alloc, file, 1000)? {
        AigRead::Aig(aig) => Ok(has_items(&aig)),
        AigRead::Fault(_) => Ok(false),
        AigRead::NoMemory => Ok(false),
    }
}

#[test]
fn lists_tell_their_items(rt: HostRuntime) {
    assert!(rt; tells_its_items(rt.alloc()) == Ok(true));
}
