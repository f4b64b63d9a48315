// Rows from outside, and each call once with ample memory.
use gi_dimacs::{
    CnfCode, CnfFault, CnfRead, CnfReader, IcnfRead, IcnfReader, Item, Items, write_cnf, write_icnf,
};
use gi_lit::{Lit, Lits};
use std::alloc::Global;

// A format, a text, and what it is read as: its text again, or the code and the line of its fault. `/` stands for
// LF, `~` for a tab and `^` for CR.
const TABLE: &str = "cnf|p cnf 2 9/1 -2/0|p cnf 2 1/1 -2 0/
cnf|c small example/p cnf 3 2/1 -3 0/2 3 -1 0/%/0|p cnf 3 2/1 -3 0/2 3 -1 0/
cnf||Header 1
cnf|p cnf 1 1/99999999999 0|Limit 2
cnf|p cnf 1 1/1 -0|Number 2
cnf|p cnf 1 1/1/|Unterminated 3
cnf|p cnf 1 1/1|Unterminated 3
cnf|p cnf 0 0|p cnf 0 0/
cnf|p cnf 0 0/|p cnf 0 0/
cnf|p cnf 0 0/0|p cnf 0 1/0/
cnf|p cnf 1 0/0 0 0|p cnf 1 3/0/0/0/
cnf|p cnf 3 1/1 0|p cnf 3 1/1 0/
cnf|p cnf 1 1/5 0|p cnf 5 1/5 0/
cnf|p cnf 1 1/1 c 0|Word 2
cnf|p cnf 2 1/1/c 2 0/-2 0|p cnf 2 1/1 -2 0/
cnf|p cnf 2 1/1//-2 0|p cnf 2 1/1 -2 0/
cnf| c x/p cnf 1 1/1 0|Header 1
cnf|p cnf 1 1/ c x|Word 2
cnf|c/c/p cnf 1 0|p cnf 1 0/
cnf|cp cnf 1 1|Header 2
cnf|c x/c y/|Header 3
cnf|//|Header 3
cnf| /~/^/p cnf 1 0|p cnf 1 0/
cnf|p cnf 1 0 ^|p cnf 1 0/
cnf| p~cnf  1 0|p cnf 1 0/
cnf|p cnf 1 1^/1 0^/|p cnf 1 1/1 0/
cnf|p cnf 1|Header 1
cnf|p cnf 1 1 1|Header 1
cnf|P cnf 1 1|Header 1
cnf|p CNF 1 1|Header 1
cnf|p cnf -1 1|Header 1
cnf|p cnf 1 -1|Header 1
cnf|p cnf x 1|Header 1
cnf|p cnf 1 1x|Header 1
cnf|p cnf +1 1|Header 1
cnf|p cnf -0 1|Header 1
cnf|p cnf 007 0003|p cnf 7 0/
cnf|p cnf 16777216 0|p cnf 16777216 0/
cnf|p cnf 16777217 0|Limit 1
cnf|p cnf 99999999999999999999 0|Limit 1
cnf|p cnf 16777216 4294967295|p cnf 16777216 0/
cnf|p cnf 1 4294967296|Limit 1
cnf|p cnf 16777217 x|Header 1
cnf|p cnf -99999999999 1|Header 1
cnf|p inccnf|Header 1
cnf|%/p cnf 1 1|Header 1
cnf|1 0/p cnf 1 1|Header 1
cnf|p cnf 1 1/1 0/%|p cnf 1 1/1 0/
cnf|p cnf 1 1/1 0/% x y/zzz|p cnf 1 1/1 0/
cnf|p cnf 1 1/1 0/ % x/-|p cnf 1 1/1 0/
cnf|p cnf 1 1/1 0 %/|Word 2
cnf|p cnf 1 1/%%|Word 2
cnf|p cnf 2 1/1 -2/%|Unterminated 3
cnf|p cnf 2 1/1 -2/%/0|Unterminated 3
cnf|p cnf 1 1/+1 0|Word 2
cnf|p cnf 1 1/1x 0|Number 2
cnf|p cnf 1 1/- 0|Number 2
cnf|p cnf 1 1/--1 0|Number 2
cnf|p cnf 1 1/1 00|p cnf 1 1/1 0/
cnf|p cnf 1 1/01 -001 0|p cnf 1 1/1 -1 0/
cnf|p cnf 1 1/1 -00|Number 2
cnf|p cnf 1 1/16777216 0|p cnf 16777216 1/16777216 0/
cnf|p cnf 1 1/16777217 0|Limit 2
cnf|p cnf 1 1/-16777216 0|p cnf 16777216 1/-16777216 0/
cnf|p cnf 1 1/-16777217 0|Limit 2
cnf|p cnf 1 1/4294967296 0|Limit 2
cnf|p cnf 1 1/x 16777217 0|Word 2
cnf|p cnf 1 1/16777217 x 0|Limit 2
cnf|p cnf 1 1/1 0/x/1x|Word 3
cnf|p cnf 1 1/1 0/c/x|Word 4
cnf|c/c/p cnf 1 1/1x|Number 4
cnf|p cnf 1 1/1 1 -1 0|p cnf 1 1/1 1 -1 0/
cnf|p cnf 1 1/1 0 -1 0|p cnf 1 2/1 0/-1 0/
cnf|p cnf 1 1/a 1 0|Word 2
cnf|p cnf 1 1/p cnf 1 1|Word 2
cnf|p cnf 1 1/1/%x|Word 3
cnf|p cnf 1 1/1.5 0|Number 2
icnf|p inccnf/a 1 0|p inccnf/a 1 0/
icnf||Header 1
icnf|p cnf 1 1|Header 1
icnf|p inccnf 1|Header 1
icnf|p incnf|Header 1
icnf|p inccnf|p inccnf/
icnf|c/p inccnf/1 2 0/a -1 0/a 0/-2 0/a 3 0|p inccnf/1 2 0/a -1 0/a 0/-2 0/a 3 0/
icnf|p inccnf/1 2/0 a|Word 3
icnf|p inccnf/1 2/a 1 0|Unterminated 3
icnf|p inccnf/1 2/a x|Unterminated 3
icnf|p inccnf/a 1 2|Unterminated 2
icnf|p inccnf/a|Unterminated 2
icnf|p inccnf/a/1 0|Unterminated 2
icnf|p inccnf/a 1 x|Word 2
icnf|p inccnf/a 1 0 2|Word 2
icnf|p inccnf/a 1 0 0|Word 2
icnf|p inccnf/a % 0|Word 2
icnf|p inccnf/a 1 +2 0|Word 2
icnf|p inccnf/a 1x 0|Number 2
icnf|p inccnf/a 16777217 0|Limit 2
icnf|p inccnf/a 16777216 0|p inccnf/a 16777216 0/
icnf|p inccnf/a 1 0/%/a 2 0|p inccnf/a 1 0/
icnf|p inccnf/1/%|Unterminated 3
icnf|p inccnf/1|Unterminated 3
icnf|p inccnf/ a 1 0|p inccnf/a 1 0/
icnf|p inccnf/A 1 0|Word 2
icnf|p inccnf/a1 0|Word 2
icnf|p inccnf/0/a -5 2 -5 0|p inccnf/0/a -5 2 -5 0/
icnf|p inccnf/c a/a 00|p inccnf/a 0/
icnf|p inccnf/1 0 2/3 0|p inccnf/1 0/2 3 0/";

// The byte that a character of a cell stands for.
fn byte_of(b: u8) -> u8 {
    match b {
        b'/' => b'\n',
        b'~' => b'\t',
        b'^' => b'\r',
        other => other,
    }
}

// The bytes that a cell stands for.
fn bytes_of(alloc: Global, cell: &str) -> Option<Vec<u8>> {
    let mut bytes = Vec::new(alloc);
    for b in cell.as_bytes() {
        match bytes.push(byte_of(*b)) {
            Ok(()) => {}
            Err(_) => return None,
        }
    }
    Some(bytes)
}

fn stands_for(cell: &str, bytes: &[u8]) -> bool {
    let cell = cell.as_bytes();
    cell.len() == bytes.len() && cell.iter().zip(bytes).all(|(c, b)| byte_of(*c) == *b)
}

fn code_name(code: CnfCode) -> &'static str {
    match code {
        CnfCode::Header => "Header ",
        CnfCode::Word => "Word ",
        CnfCode::Number => "Number ",
        CnfCode::Limit => "Limit ",
        CnfCode::Unterminated => "Unterminated ",
    }
}

fn is_fault(fault: CnfFault, want: &str) -> bool {
    match want.strip_prefix(code_name(fault.code)) {
        Some(line) => line.parse::<u64>() == Ok(fault.line),
        None => false,
    }
}

fn cnf_is(alloc: Global, read: CnfRead, want: &str) -> bool {
    match read {
        CnfRead::Value(cnf) => match write_cnf(alloc, &cnf) {
            Ok(text) => stands_for(want, text.as_slice()),
            Err(_) => false,
        },
        CnfRead::Fault(fault) => is_fault(fault, want),
        CnfRead::NoMemory => false,
    }
}

fn icnf_is(alloc: Global, read: IcnfRead, want: &str) -> bool {
    match read {
        IcnfRead::Value(icnf) => match write_icnf(alloc, &icnf) {
            Ok(text) => stands_for(want, text.as_slice()),
            Err(_) => false,
        },
        IcnfRead::Fault(fault) => is_fault(fault, want),
        IcnfRead::NoMemory => false,
    }
}

// Whether a text in pieces of so many bytes is read as this.
fn reads_cnf(alloc: Global, text: &[u8], size: usize, want: &str) -> bool {
    let mut reader = CnfReader::new(alloc);
    for piece in text.chunks(size.max(1)) {
        if reader.feed(piece).is_err() {
            return false;
        }
    }
    cnf_is(alloc, reader.finish(), want)
}

fn reads_icnf(alloc: Global, text: &[u8], size: usize, want: &str) -> bool {
    let mut reader = IcnfReader::new(alloc);
    for piece in text.chunks(size.max(1)) {
        if reader.feed(piece).is_err() {
            return false;
        }
    }
    icnf_is(alloc, reader.finish(), want)
}

fn reads(alloc: Global, format: &str, text: &[u8], want: &str) -> bool {
    for size in [1, 3, 1000] {
        let right = if format == "cnf" {
            reads_cnf(alloc, text, size, want)
        } else {
            reads_icnf(alloc, text, size, want)
        };
        if !right {
            return false;
        }
    }
    true
}

fn row_holds(alloc: Global, row: &str) -> bool {
    let Some((format, cells)) = row.split_once('|') else {
        return false;
    };
    let Some((text, want)) = cells.split_once('|') else {
        return false;
    };
    match bytes_of(alloc, text) {
        Some(bytes) => reads(alloc, format, bytes.as_slice(), want),
        None => false,
    }
}

#[test]
fn reads_the_table(rt: HostRuntime) {
    for row in TABLE.split('\n') {
        assert!(rt; row_holds(rt.alloc(), row), "{row}");
    }
}

// An ask of so many times 1024 literals and of what stands behind them, at line 2.
fn feeds_an_ask(reader: &mut IcnfReader, pieces: u32, rest: &[u8]) -> bool {
    let literals = b"7 7 7 7 7 7 7 7 7 7 7 7 7 7 7 7 7 7 7 7 7 7 7 7 7 7 7 7 7 7 7 7 ";
    if reader.feed(b"p inccnf\na ").is_err() {
        return false;
    }
    for _ in 0..pieces {
        if reader.feed(literals).is_err() {
            return false;
        }
    }
    reader.feed(rest).is_ok()
}

fn takes_an_ask(alloc: Global, rest: &[u8]) -> bool {
    let mut reader = IcnfReader::new(alloc);
    if !feeds_an_ask(&mut reader, 32_768, rest) {
        return false;
    }
    match reader.finish() {
        IcnfRead::Value(icnf) => icnf.vars == 7 && icnf.items.len() == 1,
        _ => false,
    }
}

fn refuses_an_ask(alloc: Global, rest: &[u8]) -> bool {
    let mut reader = IcnfReader::new(alloc);
    if !feeds_an_ask(&mut reader, 32_768, rest) {
        return false;
    }
    match reader.finish() {
        IcnfRead::Fault(fault) => is_fault(fault, "Limit 2"),
        _ => false,
    }
}

// 1,048,576 assumptions, and one more.
#[test]
fn an_ask_has_a_limit(rt: HostRuntime) {
    assert!(rt; takes_an_ask(rt.alloc(), b"0"));
    assert!(rt; refuses_an_ask(rt.alloc(), b"7 0"));
}

fn has_one(item: Option<&Item>) -> bool {
    match item {
        Some(Item::Ask(lits)) => lits.len() == 1,
        _ => false,
    }
}

fn keeps_items(alloc: Global) -> bool {
    let mut items = Items::new(alloc);
    if !items.is_empty() || items.push(Item::Clause(Lits::new(alloc))).is_err() {
        return false;
    }
    let mut lits = Lits::new(alloc);
    match Lit::from_dimacs(-3) {
        Some(lit) => {
            if lits.push(lit).is_err() {
                return false;
            }
        }
        None => return false,
    }
    if items.push(Item::Ask(lits)).is_err() {
        return false;
    }
    items.len() == 2 && has_one(items.get(1)) && items.get(2).is_none()
}

#[test]
fn items_are_kept(rt: HostRuntime) {
    assert!(rt; keeps_items(rt.alloc()));
}

fn is_shown(alloc: Global, fault: CnfFault, want: &str) -> bool {
    match format!(in alloc; "{}", fault) {
        Ok(text) => text.as_str() == want,
        Err(_) => false,
    }
}

#[test]
fn a_fault_is_shown(rt: HostRuntime) {
    let fault = CnfFault {
        line: 7,
        code: CnfCode::Unterminated,
    };
    assert!(rt; is_shown(rt.alloc(), fault, "line 7: a list has no 0"));
}
