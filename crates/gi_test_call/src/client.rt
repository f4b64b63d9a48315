// Servers that tell the truth, and others.
use gi_call::{CallEnd, call_one};
use gi_outside::MemoryLink;
use gi_text::Bytes;
use std::alloc::{AllocError, Global};

// What the user types, what the server says, how the client ends, what it prints, and what it
// sends.
struct Row {
    typed: &'static str,
    said: &'static str,
    end: CallEnd,
    printed: &'static str,
    sent: &'static str,
}

const ONE_MODEL: &str = "add 1 2 0\nadd -1 0\nsolve\nwait\nmodel\nbye\n";

const ONE_MODEL_FRONT: &str = "add 1 2 0\nadd -1 0\nsolve\nwait\nmodel\n";

const ROWS: [Row; 12] = [
    Row {
        typed: ONE_MODEL,
        said: "ok\nok\nstarted 1\nsat 1\nmodel -1 2 0\nbye\n",
        end: CallEnd::Done,
        printed: "ok\nok\nstarted 1\nsat 1\nmodel -1 2 0\nbye\n",
        sent: ONE_MODEL,
    },
    Row {
        typed: ONE_MODEL,
        said: "ok\nok\nstarted 1\nsat 1\nmodel 1 2 0\n",
        end: CallEnd::FalseModel(5),
        printed: "ok\nok\nstarted 1\nsat 1\n",
        sent: ONE_MODEL_FRONT,
    },
    Row {
        typed: "add 1 2 0\n",
        said: "started 1\n",
        end: CallEnd::BadReply(1),
        printed: "",
        sent: "add 1 2 0\n",
    },
    Row {
        typed: "add 1 2 0\n",
        said: "maybe\n",
        end: CallEnd::BadReply(1),
        printed: "",
        sent: "add 1 2 0\n",
    },
    Row {
        typed: "add 1 2 0\n",
        said: "refused 9 9\n",
        end: CallEnd::BadReply(1),
        printed: "",
        sent: "add 1 2 0\n",
    },
    Row {
        typed: "add 1 2 0\n",
        said: "",
        end: CallEnd::Early,
        printed: "",
        sent: "add 1 2 0\n",
    },
    // A line that isn't sent, and a refusal under the user's line.
    Row {
        typed: "frobnicate\nadd 1 +\n2 0\nadd 3 0",
        said: "ok\nrefused 2 9",
        end: CallEnd::Done,
        printed: "refused 1 1\nok\nrefused 4 9\n",
        sent: "add 1 2 0\nadd 3 0\n",
    },
    // A dropped guard's clause doesn't count, and its assumption never does.
    Row {
        typed: "guard\nunder 3 1 0\nassume 3 0\nsolve\nmodel\ndrop 3\nmodel\n",
        said: "guard 3\nok\nok\nstarted 1\nmodel 1 2 0\nok\nmodel -1 2 0\n",
        end: CallEnd::Done,
        printed: "guard 3\nok\nok\nstarted 1\nmodel 1 2 0\nok\nmodel -1 2 0\n",
        sent: "guard\nunder 3 1 0\nassume 3 0\nsolve\nmodel\ndrop 3\nmodel\n",
    },
    Row {
        typed: "guard\nunder 3 1 0\nassume 3 0\nsolve\nmodel\n",
        said: "guard 3\nok\nok\nstarted 1\nmodel -1 2 0\n",
        end: CallEnd::FalseModel(5),
        printed: "guard 3\nok\nok\nstarted 1\n",
        sent: "guard\nunder 3 1 0\nassume 3 0\nsolve\nmodel\n",
    },
    // The assumptions of a scope count.
    Row {
        typed: "assume 1 0\ntest\nsolve\nmodel\n",
        said: "ok\nimplied 0\nstarted 1\nmodel -1 0\n",
        end: CallEnd::FalseModel(4),
        printed: "ok\nimplied 0\nstarted 1\n",
        sent: "assume 1 0\ntest\nsolve\nmodel\n",
    },
    // So do the clauses of a file.
    Row {
        typed: "load cnf 15\np cnf 1 1\n-1 0\nsolve\nmodel\n",
        said: "loaded cnf 1 1\nstarted 1\nmodel 1 0\n",
        end: CallEnd::FalseModel(3),
        printed: "loaded cnf 1 1\nstarted 1\n",
        sent: "load cnf 15\np cnf 1 1\n-1 0\nsolve\nmodel\n",
    },
    // Want of memory and an ended machine are told like any answer.
    Row {
        typed: "vars 2\nvars 3\n",
        said: "nomem\nrefused 2 3\n",
        end: CallEnd::Done,
        printed: "nomem\nrefused 2 3\n",
        sent: "vars 2\nvars 3\n",
    },
];

fn link_of(
    alloc: Global,
    input: &str,
    reads: Vec<u64>,
    writes: Vec<u64>,
) -> Result<MemoryLink, AllocError> {
    let input = Bytes::of(alloc, input.as_bytes())?;
    Ok(MemoryLink::new(alloc, input, Vec::new(alloc), reads, writes))
}

fn plain_link(alloc: Global, input: &str) -> Result<MemoryLink, AllocError> {
    link_of(alloc, input, Vec::new(alloc), Vec::new(alloc))
}

fn ends_so(alloc: Global, row: &Row) -> Result<bool, AllocError> {
    let mut server = plain_link(alloc, row.said)?;
    let mut user = plain_link(alloc, row.typed)?;
    let end = call_one(alloc, &mut server, &mut user);
    Ok(
        end == row.end
            && user.written() == row.printed.as_bytes()
            && server.written() == row.sent.as_bytes(),
    )
}

#[test]
fn servers_that_lie(rt: HostRuntime) {
    for row in &ROWS {
        assert_eq!(rt; ends_so(rt.alloc(), row), Ok(true), "{}", row.typed);
    }
}

// Which read and which write of a link fail, 0 for none, and how the client then ends.
const FAULTS: [(u64, u64, u64, u64, CallEnd); 4] = [
    (1, 0, 0, 0, CallEnd::ReadFault),
    (0, 2, 0, 0, CallEnd::WriteFault),
    (0, 0, 1, 0, CallEnd::ReadFault),
    (0, 0, 0, 2, CallEnd::WriteFault),
];

fn only(alloc: Global, number: u64) -> Result<Vec<u64>, AllocError> {
    Vec::from_slice(alloc, &[number])
}

fn fails_so(alloc: Global, fault: (u64, u64, u64, u64, CallEnd)) -> Result<bool, AllocError> {
    let (said_read, said_write, typed_read, typed_write, want) = fault;
    let (reads, writes) = (only(alloc, said_read)?, only(alloc, said_write)?);
    let mut server = link_of(alloc, "ok\nbye\n", reads, writes)?;
    let (reads, writes) = (only(alloc, typed_read)?, only(alloc, typed_write)?);
    let mut user = link_of(alloc, "add 1 0\nbye\n", reads, writes)?;
    Ok(call_one(alloc, &mut server, &mut user) == want)
}

#[test]
fn links_that_fail(rt: HostRuntime) {
    for fault in FAULTS {
        assert_eq!(rt; fails_so(rt.alloc(), fault), Ok(true));
    }
}
