// Laws of the definitions that the contracts cite.
ghost use Rattle.gi_text.specs.Laws.{CutsDoNotMatter, EndsAtFirstLf, SpellingsAreRead, WordsAreRuns};

/// A piece that is fed in two parts leaves what it leaves when it is fed whole.
pub fn cuts_do_not_matter()
    ensures { CutsDoNotMatter }
{}

/// The first line is what stands before the first LF, and what is behind it stays.
pub fn lines_end_at_lf()
    ensures { EndsAtFirstLf }
{}

/// Words are the maximal runs of bytes that are not white.
pub fn words_are_runs()
    ensures { WordsAreRuns }
{}

/// The shortest decimal spelling of a number is read as that number.
pub fn spellings_are_read()
    ensures { SpellingsAreRead }
{}
