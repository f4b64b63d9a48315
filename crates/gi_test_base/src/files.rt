// Rows from the formats' rules, and each call once with ample memory.
use gi_dimacs::{Cnf, CnfCode, CnfFault, Icnf};
use gi_files::{Done, FileInput, Form, check, convert, read_file, write_refused};
use gi_outside::{MemoryLink, Sent};
use gi_text::Bytes;
use std::alloc::{AllocError, Global};

// Inputs with the line that `check` prints, and what `convert` prints.
const ACCEPTED: [(Form, &[u8], &[u8], &[u8]); 5] = [
    (
        Form::Cnf,
        b"p cnf 2 9\n1 -2\n0\n",
        b"cnf 2 1\n",
        b"p cnf 2 1\n1 -2 0\n",
    ),
    (
        Form::Cnf,
        b"c small example\np cnf 3 2\n1 -3 0\n2 3 -1 0\n%\n0\n",
        b"cnf 3 2\n",
        b"p cnf 3 2\n1 -3 0\n2 3 -1 0\n",
    ),
    (
        Form::Cnf,
        b"p cnf 16777216 4294967295",
        b"cnf 16777216 0\n",
        b"p cnf 16777216 0\n",
    ),
    (
        Form::Icnf,
        b"p inccnf\n1 2 0\na -1 -2 0\n-1 0\na 2 0\n",
        b"icnf 2 2 2\n",
        b"p inccnf\n1 2 0\na -1 -2 0\n-1 0\na 2 0\n",
    ),
    (
        Form::Icnf,
        b"c\np inccnf\n0 007\n-3 0\n a 0 \n\n% 5",
        b"icnf 7 2 1\n",
        b"p inccnf\n0\n7 -3 0\na 0\n",
    ),
];

// Inputs with the line that refuses them, and the fault that it names.
const REFUSED: [(Form, &[u8], &[u8], u64, CnfCode); 8] = [
    (Form::Cnf, b"", b"refused 1 header\n", 1, CnfCode::Header),
    (
        Form::Icnf,
        b"c\n\n",
        b"refused 3 header\n",
        3,
        CnfCode::Header,
    ),
    (
        Form::Icnf,
        b"p cnf 1 1\n1 0\n",
        b"refused 1 header\n",
        1,
        CnfCode::Header,
    ),
    (
        Form::Cnf,
        b"p cnf 2 1\n1 x 0\n",
        b"refused 2 word\n",
        2,
        CnfCode::Word,
    ),
    (
        Form::Cnf,
        b"p cnf 1 1\n1 0\n1 -0 y",
        b"refused 3 number\n",
        3,
        CnfCode::Number,
    ),
    (
        Form::Cnf,
        b"p cnf 1 1\n99999999999 0\n",
        b"refused 2 limit\n",
        2,
        CnfCode::Limit,
    ),
    (
        Form::Cnf,
        b"p cnf 1 1\n1\n",
        b"refused 3 unterminated\n",
        3,
        CnfCode::Unterminated,
    ),
    (
        Form::Icnf,
        b"p inccnf\n1\na 1 0\n",
        b"refused 3 unterminated\n",
        3,
        CnfCode::Unterminated,
    ),
];

// Faults of a link: the numbers of the read and of the write that fail; and the end.
const FAULTS: [(&[u8], u64, u64, Done); 5] = [
    (b"p cnf 0 0\n", 1, 0, Done::ReadFault),
    (b"p cnf 0 0\n", 3, 0, Done::ReadFault),
    (b"p cnf 0 0\n", 5, 0, Done::ReadFault),
    (b"p cnf 0 0\n", 0, 1, Done::WriteFault),
    (b"p dnf 0 0\n", 0, 1, Done::WriteFault),
];

// A link that gives the input in pieces of two bytes at first, and of which this read and this write fail.
fn link(
    alloc: Global,
    input: &[u8],
    bad_read: u64,
    bad_write: u64,
) -> Result<MemoryLink, AllocError> {
    Ok(MemoryLink::new(
        alloc,
        Bytes::of(alloc, input)?,
        vec![in alloc; 2, 2, 2]?,
        vec![in alloc; bad_read]?,
        vec![in alloc; bad_write]?,
    ))
}

// Whether `check` ends so, and writes this.
fn checks(alloc: Global, form: Form, input: &[u8], output: &[u8], done: Done) -> bool {
    match link(alloc, input, 0, 0) {
        Ok(mut user) => check(alloc, form, &mut user) == done && user.written() == output,
        Err(_) => false,
    }
}

// Whether `convert` ends so, and writes this.
fn converts(alloc: Global, form: Form, input: &[u8], output: &[u8], done: Done) -> bool {
    match link(alloc, input, 0, 0) {
        Ok(mut user) => convert(alloc, form, &mut user) == done && user.written() == output,
        Err(_) => false,
    }
}

// Whether `check` over a link with these faults ends so, and writes nothing.
fn fails(alloc: Global, input: &[u8], bad_read: u64, bad_write: u64, done: Done) -> bool {
    match link(alloc, input, bad_read, bad_write) {
        Ok(mut user) => {
            check(alloc, Form::Cnf, &mut user) == done && user.written() == b"".as_slice()
        }
        Err(_) => false,
    }
}

#[test]
fn inputs(rt: HostRuntime) {
    let alloc = rt.alloc();
    for (form, input, counts, text) in ACCEPTED {
        assert!(rt; checks(alloc, form, input, counts, Done::Accepted));
        assert!(rt; converts(alloc, form, input, text, Done::Accepted));
    }
}

#[test]
fn refusals(rt: HostRuntime) {
    let alloc = rt.alloc();
    for (form, input, line, at, code) in REFUSED {
        let refused = Done::Refused(CnfFault { line: at, code });
        assert!(rt; checks(alloc, form, input, line, refused));
        assert!(rt; converts(alloc, form, input, line, refused));
    }
}

#[test]
fn faults(rt: HostRuntime) {
    let alloc = rt.alloc();
    for (input, bad_read, bad_write, done) in FAULTS {
        assert!(rt; fails(alloc, input, bad_read, bad_write, done));
    }
}

// Whether a CNF file is read with so many variables and clauses.
fn reads_cnf(alloc: Global, input: &[u8], vars: u32, clauses: usize) -> bool {
    match link(alloc, input, 0, 0) {
        Ok(mut user) => match read_file::<Cnf, MemoryLink>(alloc, &mut user) {
            FileInput::Value(cnf) => cnf.vars == vars && cnf.clauses.len() == clauses,
            _ => false,
        },
        Err(_) => false,
    }
}

// Whether an iCNF file is read with so many variables and items.
fn reads_icnf(alloc: Global, input: &[u8], vars: u32, items: usize) -> bool {
    match link(alloc, input, 0, 0) {
        Ok(mut user) => match read_file::<Icnf, MemoryLink>(alloc, &mut user) {
            FileInput::Value(icnf) => icnf.vars == vars && icnf.items.len() == items,
            _ => false,
        },
        Err(_) => false,
    }
}

// Whether the greatest line number is refused so.
fn refuses_the_last_line(alloc: Global) -> bool {
    let fault = CnfFault {
        line: 18_446_744_073_709_551_615,
        code: CnfCode::Unterminated,
    };
    match link(alloc, b"", 0, 0) {
        Ok(mut user) => {
            write_refused(fault, &mut user) == Sent::Done
                && user.written() == b"refused 18446744073709551615 unterminated\n".as_slice()
        }
        Err(_) => false,
    }
}

#[test]
fn calls(rt: HostRuntime) {
    let alloc = rt.alloc();
    assert!(rt; reads_cnf(alloc, b"p cnf 4 0\n2 -3 0\n", 4, 1));
    assert!(rt; reads_icnf(alloc, b"p inccnf\n2 -3 0\na 0\n", 3, 2));
    assert!(rt; refuses_the_last_line(alloc));
}
