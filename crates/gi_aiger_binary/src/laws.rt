// Laws of the binary form.
ghost use Rattle.gi_aiger_binary.specs.Laws.{GoodIsWritable, MeaningStays, NumberedIsGood, NumbersStay, TextsAreReadBack, TextsSayTheirValue, ValuesAreNumbered, WrittenAgain};

/// A sound value is numbered anew as the binary form wants it: inputs, latches and gates from 1 on,
/// each gate behind its operands, of which the greater comes first.
pub fn values_are_numbered()
    ensures { ValuesAreNumbered }
{}

/// The binary text of a numbered value within the limits is read as that value, and is a file of
/// the binary form that says it.
pub fn texts_are_read_back()
    ensures read { TextsAreReadBack }
    ensures said { TextsSayTheirValue }
{}

/// A sound value, numbered anew, is a value that files say, as its binary text does. So the value
/// that `renumber` gives of one that was read can itself be numbered anew, written in either form,
/// and read back.
pub fn numbered_is_good()
    ensures { NumberedIsGood }
{}

/// Numbering a sound value anew a second time changes nothing. So what is read from what was
/// written is written as the same bytes.
pub fn numbers_stay()
    ensures stay { NumbersStay }
    ensures again { WrittenAgain }
{}

/// A value that some file says, in either form, can be numbered anew and written, and is sound.
pub fn good_is_writable()
    ensures { GoodIsWritable }
{}

/// A value that was numbered anew means the same: no two variables that are defined have one
/// number, and where each variable takes the value of its number, every literal has the same value,
/// and the same values agree with all gates.
pub fn meaning_stays()
    ensures { MeaningStays }
{}
