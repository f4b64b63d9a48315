// What to write, for people who wrote something else.

// The commands' names.
const NAMES: [&str; 5] = ["run", "solve", "check", "convert", "drill"];

// The usage of the command at that place among the names, or one for all.
fn usage_at(place: usize) -> &'static str {
    match place {
        0 => "usage: gi_tool run [-q] < SESSION        (the calls come from standard input)",
        1 => {
            "usage: gi_tool solve cnf|icnf [--budget N] < FILE        (the input is standard input; N from 1 to 4294967295)"
        }
        2 => "usage: gi_tool check cnf|icnf < FILE        (the input is standard input)",
        3 => "usage: gi_tool convert cnf|icnf < FILE        (the input is standard input)",
        4 => "usage: gi_tool drill N        (N from 0 to 10000; no input is read)",
        _ => {
            "usage: gi_tool run|solve|check|convert|drill ..        (the input is standard input)"
        }
    }
}

/// The usage of the command that words that are no command come nearest to: the one whose name
/// shares the longest beginning, at least a letter, with the first word that is no option; where
/// none does, one for all.
pub fn usage_of(words: &[String]) -> &'static str {
    for word in words {
        if !word.as_str().starts_with('-') {
            return usage_at(nearest(word.as_bytes()));
        }
    }
    usage_at(NAMES.len())
}

// The place of the name that shares the longest beginning with a word, or their number.
fn nearest(word: &[u8]) -> usize {
    let mut most = 0;
    let mut found = NAMES.len();
    for (place, name) in NAMES.iter().enumerate() {
        let n = shared(name.as_bytes(), word);
        if n > most {
            most = n;
            found = place;
        }
    }
    found
}

// How many bytes two words share at their beginning.
fn shared(a: &[u8], b: &[u8]) -> usize {
    a.iter().zip(b).take_while(|(x, y)| x == y).count()
}
