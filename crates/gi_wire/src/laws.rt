// Laws of items, and of the texts of calls and answers.
ghost use Rattle.gi_wire.specs.Laws.{AnswersAreLines, CallsAreReadAlone, CallsAreReadBack, CallsDiffer, CutLinesAreRefused, CutLoadsAreRefused, ItemsStay, LinesAreJoined, LoadsAreItems};
ghost use Rattle.gi_wire.specs.ReplyRead.{TextsDiffer};

/// The items of the bytes so far are a front of the items of more bytes.
pub fn items_stay()
    ensures { ItemsStay }
{}

/// The line of a load and its bytes are one item, and the next line begins right behind them.
/// Without all of its bytes it is no item yet, and where the input ends it is refused under its
/// line's number.
pub fn loads_are_items()
    ensures whole { LoadsAreItems }
    ensures cut { CutLoadsAreRefused }
{}

/// A line that goes on, and one behind it that doesn't, are one item under the first one's number.
/// What goes on and has no line behind it is refused where the input ends.
pub fn lines_are_joined()
    ensures joined { LinesAreJoined }
    ensures cut { CutLinesAreRefused }
{}

/// No two answers have the same text, where the line is 0 of each that names none: so what
/// `write_reply` writes is read back as that answer.
pub fn answers_differ()
    ensures { TextsDiffer }
{}

/// The text of an answer, whatever line it answers, has an LF as its last byte and nowhere else.
pub fn answers_are_lines()
    ensures { AnswersAreLines }
{}

/// What `write_call` writes for a call is read as that call: where nothing follows, as that call
/// alone, and else with the items of what follows behind it. Of `Add`, `Under` and `Assume` this is
/// said where the lines written have together, LFs not counted, at most `MAX_JOINED` bytes.
pub fn calls_are_read_back()
    ensures front { CallsAreReadBack }
    ensures alone { CallsAreReadAlone }
{}

/// No two such calls have the same text.
pub fn calls_differ()
    ensures { CallsDiffer }
{}
