// What follows of a client's end.
ghost use Rattle.gi_call.specs.Laws.{DoneIsExact, UndisturbedIsSaid};

/// A client that nothing disturbs ends by `Done`, `BadReply`, `FalseModel` or `Early`. Undisturbed
/// is one in which no count of faults rose, memory was never wanting, and each link gave fewer than
/// 2^62 bytes.
pub fn undisturbed_is_said()
    ensures { UndisturbedIsSaid }
{}

/// Where `bye` was answered `bye`, or the user's input has ended and every item was answered, the
/// client ends by `Done`, but for a write fault and want of memory.
pub fn done_is_exact()
    ensures { DoneIsExact }
{}
