// Rows from outside, and each call once with ample memory.
use gi_outside::{Got, Link, MemoryLink, Outbox, Put, Sent, StdLink, write_all};
use gi_text::Bytes;
use std::alloc::{AllocError, Global};

const READS: [(Got, &str); 5] = [
    (Got::Bytes(2), "ab"),
    (Got::Failed, ""),
    (Got::Bytes(1), "c"),
    (Got::Bytes(3), "def"),
    (Got::End, ""),
];

const WRITES: [(&str, Put); 3] = [
    ("xy", Put::Failed),
    ("xyz", Put::Took(3)),
    ("w", Put::Took(1)),
];

fn scripted(alloc: Global) -> Result<MemoryLink, AllocError> {
    let input = Bytes::of(alloc, b"abcdef")?;
    let cuts = vec![in alloc; 2, 1]?;
    let bad_reads = vec![in alloc; 2]?;
    let bad_writes = vec![in alloc; 1]?;
    Ok(MemoryLink::new(alloc, input, cuts, bad_reads, bad_writes))
}

fn gives(link: &mut MemoryLink, want: Got, bytes: &str) -> bool {
    let mut into = [0u8; 4];
    link.read(&mut into) == want && into.starts_with(bytes.as_bytes())
}

fn takes(link: &mut MemoryLink, piece: &str, want: Put) -> bool {
    !piece.is_empty() && link.write(piece.as_bytes()) == want
}

fn follows(link: &mut MemoryLink) -> bool {
    for (want, bytes) in READS {
        if !gives(link, want, bytes) {
            return false;
        }
    }
    for (piece, want) in WRITES {
        if !takes(link, piece, want) {
            return false;
        }
    }
    link.written() == b"xyzw".as_slice() && link.starved() == 0
}

fn follows_its_script(alloc: Global) -> bool {
    match scripted(alloc) {
        Ok(mut link) => follows(&mut link),
        Err(_) => false,
    }
}

#[test]
fn a_link_follows_its_script(rt: HostRuntime) {
    assert!(rt; follows_its_script(rt.alloc()));
}

#[test]
fn standard_output_takes_bytes(rt: HostRuntime) {
    let mut link = StdLink::new(&rt);
    assert!(rt; link.write(b"\n") == Put::Took(1));
}

// A link of which this write fails.
fn with_bad_write(alloc: Global, bad: u64) -> Result<MemoryLink, AllocError> {
    let bad_writes = vec![in alloc; bad]?;
    Ok(MemoryLink::new(
        alloc,
        Bytes::new(alloc),
        Vec::new(alloc),
        Vec::new(alloc),
        bad_writes,
    ))
}

// How a text of so many times `line 7` and LF is written, and how many bytes of it are.
fn gathered(link: &mut MemoryLink, lines: u32) -> (Sent, usize) {
    let mut outbox = Outbox::new();
    for _ in 0..lines {
        outbox.put(b"line ", link);
        outbox.put_number(7, link);
        outbox.put(b"\n", link);
    }
    (outbox.finish(link), link.written().len())
}

fn gathers(alloc: Global, bad: u64, lines: u32, sent: Sent, written: usize) -> bool {
    match with_bad_write(alloc, bad) {
        Ok(mut link) => gathered(&mut link, lines) == (sent, written),
        Err(_) => false,
    }
}

// The write that fails, the lines of seven bytes, and what is written: pieces of 4,096 bytes.
const GATHERED: [(u64, u32, Sent, usize); 6] = [
    (2, 0, Sent::Done, 0),
    (2, 585, Sent::Done, 4095),
    (2, 586, Sent::Failed, 4096),
    (1, 586, Sent::Failed, 0),
    (3, 586, Sent::Done, 4102),
    (3, 1171, Sent::Failed, 8192),
];

#[test]
fn a_text_is_gathered(rt: HostRuntime) {
    for (bad, lines, sent, written) in GATHERED {
        assert!(rt; gathers(rt.alloc(), bad, lines, sent, written), "{lines}");
    }
}

fn writes_all(alloc: Global) -> bool {
    match with_bad_write(alloc, 2) {
        Ok(mut link) => {
            write_all(b"", &mut link) == Sent::Done
                && write_all(b"ab", &mut link) == Sent::Done
                && write_all(b"c", &mut link) == Sent::Failed
                && link.written() == b"ab".as_slice()
        }
        Err(_) => false,
    }
}

#[test]
fn all_bytes_are_written(rt: HostRuntime) {
    assert!(rt; writes_all(rt.alloc()));
}
