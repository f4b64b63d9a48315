// Rows from outside, and each call once with ample memory.
use gi_text::{
    Bytes, Digits, Lines, Look, MAX_LINE, Next, Number, Raw, Words, read_digits, read_number,
};
use std::alloc::Global;

// What a script does with lines.
#[derive(Clone, Copy)]
enum Step {
    Feed(&'static str),
    End,
    // What `next_line` gives: a line, or the name of another answer.
    Gives(&'static str),
}

const PIECES: [Step; 7] = [
    Step::Feed("ab"),
    Step::Gives("<more>"),
    Step::Feed("c\nd"),
    Step::Gives("abc"),
    Step::Gives("<more>"),
    Step::End,
    Step::Gives("d"),
];

const TOO_LONG: [Step; 12] = [
    Step::Feed("abc\n\nabcd\nef"),
    Step::Gives("abc"),
    Step::Gives(""),
    Step::Gives("<long>"),
    Step::Gives("<more>"),
    Step::Feed("gh"),
    Step::Gives("<more>"),
    Step::Feed("ij\nk"),
    Step::End,
    Step::Gives("<long>"),
    Step::Gives("k"),
    Step::Gives("<done>"),
];

fn gives(lines: &mut Lines, want: &str) -> bool {
    match lines.next_line() {
        Next::Line(line) => line.as_slice() == want.as_bytes(),
        Next::Long => want == "<long>",
        Next::More => want == "<more>",
        Next::Done => want == "<done>",
        Next::NoMemory => false,
    }
}

fn follows(lines: &mut Lines, step: Step) -> bool {
    match step {
        Step::Feed(piece) => lines.feed(piece.as_bytes()).is_ok(),
        Step::End => {
            lines.end();
            true
        }
        Step::Gives(want) => gives(lines, want),
    }
}

fn follow(lines: &mut Lines, steps: &[Step]) -> bool {
    for step in steps {
        if !follows(lines, *step) {
            return false;
        }
    }
    true
}

#[test]
fn lines_come_in_pieces(rt: HostRuntime) {
    assert!(rt; follow(&mut Lines::new(rt.alloc()), &PIECES));
}

#[test]
fn a_line_is_too_long(rt: HostRuntime) {
    assert!(rt; follow(&mut Lines::with_limit(rt.alloc(), 3), &TOO_LONG));
}

// Bytes of a line, each looked for at once.
fn feeds_bytes(lines: &mut Lines, n: u32) -> bool {
    for _ in 0..n {
        if lines.feed(b"a").is_err() || !matches!(lines.next_line(), Next::More) {
            return false;
        }
    }
    true
}

// Bytes of a line, in pieces of 1024.
fn feeds_pieces(lines: &mut Lines, n: u32) -> bool {
    for _ in 0..n {
        if lines.feed(&[b'a'; 1024]).is_err() {
            return false;
        }
    }
    true
}

fn gives_bytes(lines: &mut Lines, n: usize) -> bool {
    match lines.next_line() {
        Next::Line(line) => line.as_slice().len() == n,
        _ => false,
    }
}

const BEHIND_LONG: [Step; 4] = [
    Step::Feed("aa\nb\n"),
    Step::Gives("<long>"),
    Step::Gives("b"),
    Step::Gives("<more>"),
];

#[test]
fn a_long_line_comes_byte_by_byte(rt: HostRuntime) {
    let mut lines = Lines::new(rt.alloc());
    assert!(rt; feeds_bytes(&mut lines, MAX_LINE + 1) && follow(&mut lines, &BEHIND_LONG));
    assert!(rt; feeds_pieces(&mut lines, MAX_LINE / 1024) && follows(&mut lines, Step::Feed("\n")));
    assert!(rt; gives_bytes(&mut lines, 1_048_576));
}

fn is_raw(raw: Raw, want: &str) -> bool {
    match raw {
        Raw::Bytes(bytes) => bytes.as_slice() == want.as_bytes(),
        Raw::More => want == "<more>",
        Raw::Cut => want == "<cut>",
        Raw::NoMemory => false,
    }
}

fn cuts_raw_bytes(alloc: Global) -> bool {
    let mut lines = Lines::new(alloc);
    if lines.feed(b"xyz").is_err() || !is_raw(lines.take_raw(2), "xy") {
        return false;
    }
    if !is_raw(lines.take_raw(2), "<more>") {
        return false;
    }
    lines.end();
    is_raw(lines.take_raw(2), "<cut>") && gives(&mut lines, "<done>")
}

#[test]
fn raw_bytes_are_cut(rt: HostRuntime) {
    assert!(rt; cuts_raw_bytes(rt.alloc()));
}

fn looks(alloc: Global) -> bool {
    let mut lines = Lines::new(alloc);
    if lines.feed(b"abc\nd").is_err() || lines.look() != Look::Line(3) {
        return false;
    }
    gives(&mut lines, "abc") && lines.look() == Look::More
}

#[test]
fn a_line_is_looked_at(rt: HostRuntime) {
    assert!(rt; looks(rt.alloc()));
}

fn grows(alloc: Global) -> bool {
    let mut bytes = Bytes::new(alloc);
    if bytes.extend(b"ab").is_err() || bytes.push(b'c').is_err() {
        return false;
    }
    let grown = bytes.as_slice() == b"abc".as_slice();
    bytes.clear();
    grown && bytes.as_slice().is_empty()
}

#[test]
fn bytes_grow(rt: HostRuntime) {
    assert!(rt; grows(rt.alloc()));
}

// Whether the words of a line are these, each with a `/` behind it.
fn has_words(line: &[u8], want: &str) -> bool {
    let mut rest = want.as_bytes();
    for word in Words::new(line) {
        match rest.strip_prefix(word) {
            Some([b'/', behind @ ..]) => rest = behind,
            _ => return false,
        }
    }
    rest.is_empty()
}

#[test]
fn words_are_runs(rt: HostRuntime) {
    assert!(rt; has_words(b" add\t1  -2\r0\r", "add/1/-2/0/"));
    assert!(rt; has_words(b" \r", ""));
}

const NUMBERS: [(&str, Number); 14] = [
    ("0", Number::Value(0)),
    ("-1", Number::Value(-1)),
    ("007", Number::Value(7)),
    ("4294967295", Number::Value(4_294_967_295)),
    ("-4294967295", Number::Value(-4_294_967_295)),
    ("4294967296", Number::TooBig),
    ("-4294967296", Number::TooBig),
    ("99999999999999999999", Number::TooBig),
    ("", Number::NotNumber),
    ("-", Number::NotNumber),
    ("-0", Number::NotNumber),
    ("-00", Number::NotNumber),
    ("+1", Number::NotNumber),
    ("1x", Number::NotNumber),
];

fn is_number(word: &str, want: Number) -> bool {
    read_number(word.as_bytes()) == want
}

#[test]
fn numbers_are_read(rt: HostRuntime) {
    for (word, want) in NUMBERS {
        assert!(rt; is_number(word, want), "{word}");
    }
}

const SPELLINGS: [(i128, &str); 4] = [
    (0, "0"),
    (-1, "-1"),
    (170, "170"),
    (i128::MIN, "-170141183460469231731687303715884105728"),
];

fn is_spelled(n: i128, want: &str) -> bool {
    Digits::of(n).as_slice() == want.as_bytes()
}

#[test]
fn digits_are_written(rt: HostRuntime) {
    for (n, want) in SPELLINGS {
        assert!(rt; is_spelled(n, want), "{want}");
    }
}

const DIGITS: [(&str, Option<u64>); 7] = [
    ("0", Some(0)),
    ("18446744073709551615", Some(u64::MAX)),
    ("18446744073709551616", None),
    ("01", None),
    ("-1", None),
    ("+1", None),
    ("", None),
];

fn are_digits(word: &str, want: Option<u64>) -> bool {
    read_digits(word.as_bytes()) == want
}

#[test]
fn digits_are_read(rt: HostRuntime) {
    for (word, want) in DIGITS {
        assert!(rt; are_digits(word, want), "{word}");
    }
}
