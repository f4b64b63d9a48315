// The texts of the pages.

/// What `--help` prints.
pub const HELP: &str = "gi_tool, an incremental SAT solver: Tavonelume's program
The input comes from standard input; no word names a file.

Usage: gi_tool COMMAND < INPUT

  run [-q]                     reads a session, a call a line, and prints an answer a line; a worker solves beside it, with -q none does
  solve cnf|icnf [--budget N]  reads a file of that form and prints, for each solve, `s SATISFIABLE` with a model in `v` lines, `s UNSATISFIABLE`, or `s UNKNOWN` where N learnt clauses (1 to 4294967295) were not enough
  check cnf|icnf               reads a file of that form and prints its counts: `cnf VARIABLES CLAUSES`, `icnf VARIABLES CLAUSES ASKS`
  convert cnf|icnf             reads a file of that form and prints its canonical text
  drill N                      reads nothing, solves 600 clauses and then N rounds (0 to 10000) under a guard, and prints what it counted
  -h, --help                   prints this page
  -V, --version                prints the version

Exit codes:
  0   the command did its work; for `solve`, its last solve has no answer within the budget, or there was none
  10  the last solve was answered satisfiable
  20  the last solve was answered unsatisfiable
  1   the input was refused; `refused LINE CODE` is printed
  2   the words are no command
  3   want of memory
  4   a read failed
  5   a write failed
  8   too much: 2^62 bytes were read, or the calls were used up: a session has at least 2^54
  9   the machine is over: its session goes on behind its end, or its work found no memory

A session, with its answers at the right:
  add 1 2 0                    ok
  solve                        started 1
  wait                         sat 1
  bye                          bye
";

/// What `--version` prints. The logic's number tells the kit with which the program was proved.
pub const VERSION: &str = "gi_tool 0.1.0, proved with rattle-kit-13 logic dac8208d650f15bf\n";
