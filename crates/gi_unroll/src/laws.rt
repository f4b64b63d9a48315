//! Laws over the definitions, each the contract of a function that does nothing.

ghost use Rattle.gi_unroll.specs.Choices.{TracesArePacked, ValuesDependOnFirst};
ghost use Rattle.gi_unroll.specs.OneByOne.{FramesGrow, FramesOneByOne};
ghost use Rattle.gi_unroll.specs.Traces.{FramesAreTraces, NoFrameSaysNothing};
ghost use Rattle.gi_unroll.specs.Laws.{EarlierFramesStay, ExtensionsAreOne, FramesContinue, FramesKeep, ValuesChoose};

/// Every choice of inputs and free latches has exactly one extension to the variables of the frames
/// so far that satisfies their clauses: there is one, and any two agree on each of these variables.
pub fn extensions_are_one()
    ensures { ExtensionsAreOne }
{}

/// The next frame of a circuit, its variables above those taken so far: its clauses are over
/// variables that it takes or that literals of earlier frames have, they are few, and with all
/// clauses before them they encode all frames.
pub fn frames_keep()
    ensures { FramesKeep }
{}

/// The next frame only puts nodes and literals behind those of the frames before. So the literals
/// of each frame have, under all clauses so far, the values that direct evaluation gives at the
/// frame's time.
pub fn earlier_frames_stay()
    ensures continued { FramesContinue }
    ensures stay { EarlierFramesStay }
{}

/// Frames one after another, from the first on, each begun above the variables that those before
/// took: the clauses of all of them encode the circuit, and wherever they hold, each frame's
/// literals have the values that direct evaluation gives at its time.
pub fn frames_one_by_one()
    ensures { FramesOneByOne }
{}

/// One frame more behind others is made last, and its clauses stand behind theirs.
pub fn frames_grow()
    ensures { FramesGrow }
{}

/// What the clauses of all frames made one after another say is what traces are: whatever satisfies
/// them holds some trace, each frame its time, in the literals of inputs, latches, outputs, bad
/// states and constraints; and each trace is held by values that satisfy them, whatever the
/// variables are that no frame took.
pub fn frames_are_traces()
    ensures { FramesAreTraces }
{}

/// As long as no frame was made there is no clause, and any values extend any choice.
pub fn no_frame_says_nothing()
    ensures { NoFrameSaysNothing }
{}

/// Each choice that frames made has one node. So of all values a choice of inputs and free latches
/// can be read.
pub fn values_choose()
    ensures { ValuesChoose }
{}

/// Values at a time depend on as many inputs up to it as the circuit has, and on as many free
/// latches, alone; and any trace can be packed into a choice, which says it.
pub fn traces_are_packed()
    ensures depend { ValuesDependOnFirst }
    ensures packed { TracesArePacked }
{}
