// Laws of the format.
ghost use Rattle.gi_aiger.specs.Laws.{AsciiHelpless, BinaryHelpless, CycleIsOne, CyclesStay, FaultsStand, GateFaultsAreShown, GateFaultsStand, GatesHelpless, GatesLast, LinesHelpless, LinesLast, OneAnswer, UndefinedIsHopeless, UsedIsUndefined};
ghost use Rattle.gi_aiger.specs.Places.{GatesHaveLevels};
ghost use Rattle.gi_aiger.specs.Saying.{ReadIsSaid, SaidIsGood, SaidIsRead, WrittenAgain, WrittenIsRead, WrittenIsSaid};

use std::alloc::Global;

/// At most one gate closes the first cycle, and whatever gates follow it, there is a cycle.
pub fn cycles_stay()
    ensures one { CycleIsOne }
    ensures stay { CyclesStay }
{}

/// Gates without cycles have levels: those of the function by a bound on steps. The order by level has each gate once, and levels
/// don't fall along it.
pub fn gates_have_levels()
    ensures { GatesHaveLevels }
{}

/// Where more variables are used and undefined than lines to come define, no continuation defines them all.
pub fn undefined_stays()
    ensures { UndefinedIsHopeless }
{}

/// The variables that are counted as used and undefined behind some lines are those that these lines use and none of them
/// defines.
pub fn used_and_undefined()
    ensures { UsedIsUndefined }
{}

/// A fault other than an early end, in a text of whole lines, is the fault however the input goes on; and a binary gate's is from
/// the byte on that shows it. Cycles of gates are left aside: `cycles_stay` has them.
pub fn faults_stand(_alloc: Global)
    ensures lines { FaultsStand }
    ensures gates { GateFaultsStand }
{}

/// A fault other than an early end that is answered of whole lines, a cycle too, is the answer however the input goes on; and a
/// binary gate's is from the byte on that shows it.
pub fn answers_stand(_alloc: Global)
    ensures lines { LinesLast }
    ensures gates { GatesLast }
{}

/// Where a fault other than an early end is answered, a cycle of gates too, no continuation helps: no value has bytes that begin
/// with these, if they are whole lines, or if the fault is a binary gate's. Nor has a value bytes that begin with the lines up
/// to the one that the fault names, each with its LF; in the binary form an LF among the bytes of gates ends no line.
pub fn no_continuation_helps(_alloc: Global)
    ensures lines { LinesHelpless }
    ensures gates { GatesHelpless }
    ensures ascii { AsciiHelpless }
    ensures binary { BinaryHelpless }
{}

/// Where a binary gate's fault is answered, the bytes up to the end of that difference show it, and no fewer: no value has bytes
/// that begin with these.
pub fn gate_faults_are_shown(_alloc: Global)
    ensures { GateFaultsAreShown }
{}

/// All bytes have exactly one answer, that of a function of them, and it is a value exactly where they say it.
pub fn one_answer()
    ensures { OneAnswer }
{}

/// A value is read from the bytes of each file that says it, in either form. So bytes say at most one value.
pub fn said_is_read()
    ensures { SaidIsRead }
{}

/// A value that is read from a file is what the file says, where its gates have no cycles.
pub fn read_is_said()
    ensures { ReadIsSaid }
{}

/// What is written of a good value in the ASCII form says the value, and is read as it. So what any file says is written,
/// read, and written again as the same bytes.
pub fn written_is_read()
    ensures said { WrittenIsSaid }
    ensures read { WrittenIsRead }
    ensures again { WrittenAgain }
{}

/// A value that some file says is good; and a good one is said by what is written of it (`written_is_read`).
pub fn said_is_good()
    ensures { SaidIsGood }
{}
