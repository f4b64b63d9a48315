// The table of commands, and what isn't one.
use gi_command::{
    Command, Page, fault_text, page_asked, print_page, read_words, refusal_text, usage_of,
};
use gi_dimacs::CnfCode;
use gi_files::Form;
use gi_outside::MemoryLink;
use gi_text::Bytes;
use std::alloc::{AllocError, Global};

// Lines of words, with the command that they are.
const LINES: [(&str, Option<Command>); 26] = [
    ("run", Some(Command::Run { quiet: false })),
    ("run -q", Some(Command::Run { quiet: true })),
    ("-q run", Some(Command::Run { quiet: true })),
    ("-- run", Some(Command::Run { quiet: false })),
    ("check cnf", Some(Command::Check(Form::Cnf))),
    ("check icnf", Some(Command::Check(Form::Icnf))),
    ("convert icnf", Some(Command::Convert(Form::Icnf))),
    ("drill 0", Some(Command::Drill(0))),
    ("drill 10000", Some(Command::Drill(10_000))),
    (
        "solve icnf",
        Some(Command::Solve {
            form: Form::Icnf,
            budget: 4_294_967_295,
        }),
    ),
    (
        "solve cnf --budget 5",
        Some(Command::Solve {
            form: Form::Cnf,
            budget: 5,
        }),
    ),
    (
        "solve --budget 5 cnf",
        Some(Command::Solve {
            form: Form::Cnf,
            budget: 5,
        }),
    ),
    (
        "--budget 5 solve cnf",
        Some(Command::Solve {
            form: Form::Cnf,
            budget: 5,
        }),
    ),
    (
        "solve cnf --budget=5",
        Some(Command::Solve {
            form: Form::Cnf,
            budget: 5,
        }),
    ),
    ("walk", None),
    ("", None),
    ("-q", None),
    ("solve cnf --budget 0", None),
    ("solve cnf --budget +5", None),
    ("solve cnf --budget 4294967296", None),
    ("solve cnf --budget 5 --budget 6", None),
    ("run --budget 5", None),
    ("check cnf -q", None),
    ("check cnf file.cnf", None),
    ("drill 10001", None),
    ("run --help", None),
];

// Lines of words, with the page that they ask for.
const PAGES: [(&str, Option<Page>); 7] = [
    ("--help", Some(Page::Help)),
    ("-h", Some(Page::Help)),
    ("--version", Some(Page::Version)),
    ("-V", Some(Page::Version)),
    ("solve --help", Some(Page::Help)),
    ("--help -q", None),
    ("run", None),
];

// Lines of words that are no command, with the beginning of the usage that is told.
const USAGES: [(&str, &str); 5] = [
    ("check cnf file.cnf", "usage: gi_tool check cnf|icnf < FILE"),
    (
        "-q slove cnf",
        "usage: gi_tool solve cnf|icnf [--budget N] < FILE",
    ),
    ("drill", "usage: gi_tool drill N"),
    ("walk", "usage: gi_tool run|solve|check|convert|drill"),
    ("-x", "usage: gi_tool run|solve|check|convert|drill"),
];

// The words of a line.
fn parted(alloc: Global, line: &str) -> Result<Vec<String>, AllocError> {
    let mut words = Vec::new(alloc);
    for word in line.split(' ') {
        words.push(String::from_str(alloc, word)?)?;
    }
    Ok(words)
}

// Whether the words of a line are this command.
fn is_read_as(alloc: Global, line: &str, command: Option<Command>) -> bool {
    match parted(alloc, line) {
        Ok(words) => match read_words(alloc, words.as_slice()) {
            Ok(read) => read == command,
            Err(_) => false,
        },
        Err(_) => false,
    }
}

#[test]
fn lines(rt: HostRuntime) {
    let alloc = rt.alloc();
    for (line, command) in LINES {
        assert!(rt; is_read_as(alloc, line, command), "{line}");
    }
}

// Whether the words of a line ask for this page.
fn asks_for(alloc: Global, line: &str, page: Option<Page>) -> bool {
    match parted(alloc, line) {
        Ok(words) => page_asked(words.as_slice()) == page,
        Err(_) => false,
    }
}

#[test]
fn pages(rt: HostRuntime) {
    let alloc = rt.alloc();
    for (line, page) in PAGES {
        assert!(rt; asks_for(alloc, line, page), "{line}");
    }
}

// Whether the version is printed with this status, over a link of which this write fails.
fn is_printed(alloc: Global, bad_write: u64, status: u8) -> Result<bool, AllocError> {
    let bad_writes = vec![in alloc; bad_write]?;
    let none = Bytes::new(alloc);
    let mut user = MemoryLink::new(alloc, none, Vec::new(alloc), Vec::new(alloc), bad_writes);
    Ok(
        print_page(Page::Version, &mut user) == status
            && user.written().starts_with(b"gi_tool ") == (status == 0),
    )
}

#[test]
fn printed(rt: HostRuntime) {
    let alloc = rt.alloc();
    assert!(rt; is_printed(alloc, 0, 0) == Ok(true));
    assert!(rt; is_printed(alloc, 1, 5) == Ok(true));
}

// Whether a line's usage begins so.
fn is_used_so(alloc: Global, line: &str, usage: &str) -> bool {
    match parted(alloc, line) {
        Ok(words) => usage_of(words.as_slice()).starts_with(usage),
        Err(_) => false,
    }
}

#[test]
fn usages(rt: HostRuntime) {
    let alloc = rt.alloc();
    for (line, usage) in USAGES {
        assert!(rt; is_used_so(alloc, line, usage), "{line}");
    }
    assert!(rt; refusal_text(CnfCode::Word).starts_with("a word is no number"));
    assert!(rt; fault_text(6) == "door failed");
}
