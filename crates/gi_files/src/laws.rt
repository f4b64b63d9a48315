// What follows of the commands.
ghost use Rattle.gi_files.specs.Completeness.{UndisturbedIsAnswered};

use gi_dimacs::one_answer;

/// A command that nothing disturbs reads its whole input and prints exactly its output: that of the
/// value where the bytes have one, and the refusal of their fault where they don't. Undisturbed is
/// one in which no count of faults rose, memory was not wanting, and fewer than 2^62 bytes were
/// taken.
pub fn undisturbed_is_answered()
    ensures { UndisturbedIsAnswered }
{
    one_answer();
}
