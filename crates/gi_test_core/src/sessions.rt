use crate::transcript::SESSIONS;
use gi_core::Core;
use gi_test_lines::goes;
use std::alloc::Global;

/// Whether a line of a session goes as it says.
fn holds(alloc: Global, core: &mut Core, line: &str) -> bool {
    match line.split_once(" = ") {
        Some((asked, answer)) => goes(alloc, core, asked, answer),
        None => false,
    }
}

/// The first line that doesn't go as it says.
fn stray(alloc: Global) -> Option<&'static str> {
    let mut core = Core::new(alloc);
    for line in SESSIONS.lines() {
        if line.starts_with("#") {
            core = Core::new(alloc);
        } else if !holds(alloc, &mut core, line) {
            return Some(line);
        }
    }
    None
}

#[test]
fn sessions(rt: HostRuntime) {
    assert_eq!(rt; stray(rt.alloc()), None);
}
