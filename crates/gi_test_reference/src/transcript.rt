/// Entries of machines, a line each, with what the definitions say of them. A line `# ..` names a session, which a
/// new machine begins. A line `CALL = REPLY` is an entry that is allowed, and that the machine then follows; one
/// with `!` before it isn't allowed. Parts of a call or a reply stand behind colons: the clause behind its guards,
/// failing assumptions behind the serial. `work` is answered by how it leaves its solve (`live`, `found` values,
/// `fails` with assumptions, `halted` by a mark, `exhausted` at a budget), with each clause that was learnt behind
/// a colon. `load` names a file of `FILES`.
pub const ENTRIES: &str = "\
# one model
add 1 2 = ok
add -1 = ok
solve 5 = started 1
!work 0 = found 1 2
!work 0 = found -1 -2
!work 0 = found -1
!work 0 = fails
!work 0 = live
!work 0 = halted 0
!work 0 = exhausted 5
!work 0 = idle
work 0 = found -1 2
!wait = unsat 1 :
wait = sat 1
!model = model 1 2
!model = model 2
model = model -1 2
bye = bye
# contradiction
add 1 = ok
add -1 = ok
solve 5 = started 1
!work 0 = found 1
!work 0 = fails 1
work 0 = fails
!wait = unsat 2 :
wait = unsat 1 :
# failing assumptions
add -1 -2 = ok
assume 1 2 = ok
solve 5 = started 1
!work 0 = fails 1
!work 0 = fails 2 1
!work 0 = fails 1 2 -1
work 0 = fails 1 2
!wait = sat 1
wait = unsat 1 : 1 2
# a failing set is of its own solve
add 1 2 = ok
assume -1 -2 = ok
solve 5 = started 1
work 0 = fails -1 -2
assume -1 = ok
solve 5 = started 2
!work 0 = fails -1 -2
!work 0 = fails -1
work 0 = found -1 2
!wait = unsat 1 : -1 -2
!wait = unsat 2 : -1 -2
wait = sat 2
# a test and its reasons
add -1 2 = ok
add -2 3 = ok
assume 1 = ok
!test = implied 3 2
!test = implied 2
!test = implied 2 3 2
!test = implied 1 2 3
!test = implied 2 3 -3
!test = failed 1
test = implied 2 3
!reasons 3 = reasons 1
!reasons 3 = reasons -2
!reasons 3 = reasons 2 2
!reasons 3 = reasons
reasons 3 = reasons 2
reasons 2 = reasons 1
untest = ok
!reasons 3 = reasons 2
reasons 3 = refused 11
# three literals in a clause
add -1 -2 3 = ok
add -3 4 = ok
assume 1 = ok
!test = implied 3 4
!test = implied -2
test = implied
assume 2 = ok
!test = implied
!test = implied 3
test = implied 3 4
!reasons 3 = reasons 2
reasons 3 = reasons 2 1
reasons 4 = reasons 3
# a guard under a test
vars 2 = vars 2
guard = guard 3
under 3 : -1 2 = ok
assume 1 = ok
!test = implied 2
!test = implied -3
test = implied
assume 3 = ok
!test = implied
test = implied 2
!reasons 2 = reasons 1
!reasons 2 = reasons 1 -3
reasons 2 = reasons 1 3
drop 3 = refused 5
untest = ok
drop 3 = refused 5
untest = ok
drop 3 = ok
# failing tests
add -1 2 = ok
add -2 = ok
assume 1 = ok
!test = implied 2
!test = failed 2
!test = failed
test = failed 1
!test = implied
test = failed 1
untest = ok
untest = ok
!test = failed 1
test = implied -2 -1
# a guard dropped and handed out again
vars 1 = vars 1
guard = guard 2
under 2 : 1 = ok
under 2 : -1 = ok
assume 2 = ok
solve 5 = started 1
!work 0 = found 1 2
!work 0 = found 1 -2
!work 0 = fails
work 0 = fails 2
wait = unsat 1 : 2
drop 2 = ok
!guard = guard 3
guard = guard 2
under 2 : 1 = ok
assume 2 = ok
solve 5 = started 2
!work 0 = found -1 2
work 0 = found 1 2
wait = sat 2
!model = model 1 2
model = model 1
# a clause learnt on a guard goes with it
vars 1 = vars 1
guard = guard 2
under 2 : 1 = ok
under 2 : -1 = ok
solve 5 = started 1
!work 0 = live : 2
work 0 = live : -2
pause = paused 1 : 1
known = known 1
drop 2 = ok
!known = known 1
known = known 0
!clause 1 = clause -2
guard = guard 2
resume = running 1 : 1
!work 0 = live : -2
work 0 = found 1 2
# a clause under two guards
guard = guard 1
guard = guard 2
under 1 2 : 3 = ok
under 1 2 : -3 = ok
assume 1 = ok
solve 5 = started 1
!work 0 = fails 1
!work 0 = fails
work 0 = found 1 -2 3
assume 1 2 = ok
solve 5 = started 2
!work 0 = fails 1
!work 0 = fails 2 1
!work 0 = found 1 2 3
work 0 = fails 1 2
wait = unsat 2 : 1 2
drop 1 = ok
guard = guard 1
assume 1 2 = ok
solve 5 = started 3
!work 0 = fails 1 2
work 0 = found 1 2 3
# groups that name a guard last, twice or not at all
guard = guard 1
guard = guard 2
under 1 5 : 3 = refused 7
under 5 1 : 3 = refused 7
under 1 : 2 = refused 6
!under : 3 = ok
under 1 1 : 3 = ok
under 1 2 : -3 4 = ok
assume 1 2 = ok
!test = implied 4 3
test = implied 3 4
!reasons 4 = reasons 1 3
!reasons 4 = reasons 3 2
reasons 4 = reasons 3 1 2
reasons 3 = reasons 1
untest = ok
drop 2 = ok
vars 0 = vars 4
assume 1 = ok
!test = implied 3 4
test = implied 3
# a paused solve holds its guard
vars 1 = vars 1
guard = guard 2
under 2 : 1 = ok
assume 2 = ok
solve 5 = started 1
!pause = running 1 : 0
pause = paused 1 : 0
!drop 2 = ok
drop 2 = refused 8
assume 1 = refused 4
stop = stopped 1
drop 2 = ok
# edits while a solve rests
add 1 2 = ok
solve 5 = started 1
pause = paused 1 : 0
work 0 = idle
add -1 = ok
add -2 = ok
resume = running 1 : 0
work 0 = fails
wait = unsat 1 :
# three pigeons, two holes
add 1 2 = ok
add 3 4 = ok
add 5 6 = ok
add -1 -3 = ok
add -1 -5 = ok
add -3 -5 = ok
add -2 -4 = ok
add -2 -6 = ok
add -4 -6 = ok
solve 1 = started 1
!work 0 = exhausted 1 : 1 2
!work 0 = exhausted 1 : -1 1
!work 0 = exhausted 1 : 7
!work 0 = exhausted 1 : -1 : 3
!work 0 = live : -1
!work 0 = fails : -1
!work 0 = fails
work 0 = exhausted 1 : -1
wait = spent 1
known = known 1
clause 1 = clause -1
clause 2 = refused 14
solve 5 = started 2
work 0 = fails
wait = unsat 2 :
# a model at a spent budget
add 1 2 = ok
add 1 -2 = ok
solve 1 = started 1
!work 0 = found 1 2 : 1
!work 0 = exhausted 2 : 1
work 0 = exhausted 1 : 1
solve 1 = started 2
work 0 = found 1 2
# the empty clause ends a solve
add 1 = ok
add -1 = ok
solve 1 = started 1
!work 0 = exhausted 1 :
!work 0 = live :
!work 0 = fails : :
work 0 = fails :
clause 1 = clause
# at most 32 clauses in a first slice
vars 7 = vars 7
add 1 = ok
add -1 = ok
solve 100 = started 1
!work 0 = live : 2 3 : 2 -3 : -2 3 : -2 -3 : 2 4 : 2 -4 : -2 4 : -2 -4 : 2 5 : 2 -5 : -2 5 : -2 -5 : 2 6 : 2 -6 : -2 6 : -2 -6 : 2 7 : 2 -7 : -2 7 : -2 -7 : 3 4 : 3 -4 : -3 4 : -3 -4 : 3 5 : 3 -5 : -3 5 : -3 -5 : 3 6 : 3 -6 : -3 6 : -3 -6 : 3 7
work 0 = live : 2 3 : 2 -3 : -2 3 : -2 -3 : 2 4 : 2 -4 : -2 4 : -2 -4 : 2 5 : 2 -5 : -2 5 : -2 -5 : 2 6 : 2 -6 : -2 6 : -2 -6 : 2 7 : 2 -7 : -2 7 : -2 -7 : 3 4 : 3 -4 : -3 4 : -3 -4 : 3 5 : 3 -5 : -3 5 : -3 -5 : 3 6 : 3 -6 : -3 6 : -3 -6
poll = running 1 : 32
# stops
solve 5 = started 1
stop = stopped 1
model = refused 13
stop = stopped 1
solve 5 = started 2
!work 2 = found
!work 2 = halted 1
!work 2 = halted 3
work 1 = found
wait = sat 2
solve 5 = started 3
work 4 = halted 4
!work 4 = halted 4
work 4 = idle
poll = stopped 3
# refusals
vars 16777217 = refused 9
untest = refused 10
poll = refused 12
model = refused 13
clause 1 = refused 14
reasons 1 = refused 11
!reasons 1 = refused 12
drop 1 = refused 7
guard = guard 1
add 1 = refused 6
under 2 : = refused 7
assume 1 = ok
drop 1 = refused 8
test = implied
drop 1 = refused 5
untest = ok
solve 5 = started 1
!wait = running 1 : 0
add 2 = refused 4
work 0 = found -1
wait = sat 1
model = model
vars 16777216 = vars 16777216
guard = refused 9
bye = bye
# want of memory
vars 1 = vars 1
guard = guard 2
!untest = nomem
!poll = nomem
!add 2 = nomem
!vars 16777217 = nomem
add 1 = nomem
!poll = refused 12
poll = refused 3
!work 0 = nomem
work 0 = idle
# shut
!solve 0 = started 1
solve 5 = started 1
!shut = bye
shut = ok
work 0 = idle
wait = refused 3
shut = refused 3
# files
!load 0 = bad_word 2
!load 1 = loaded 2 : 2
!load 1 = bad_word 3
!load 1 = bad_header 2
load 1 = bad_word 2
load 4 = bad_end 4
load 5 = bad_header 1
load 0 = loaded 2 : 2
vars 0 = vars 2
guard = guard 3
!load 2 = loaded 4 : 2
load 2 = refused 6
solve 5 = started 1
load 1 = refused 4
!load 1 = nomem
work 0 = found -1 2 -3
wait = sat 1
model = model -1 2
# want of memory for a file
vars 2 = vars 2
guard = guard 3
load 2 = nomem
load 2 = refused 3
# a file under a guard
guard = guard 1
load 0 = refused 6
load 2 = refused 6
load 3 = loaded 4 : 2
vars 0 = vars 4
solve 9 = started 1
load 3 = refused 4
!work 0 = found 1 -2 -3 4
!work 0 = found 1 2 3 -4
work 0 = found -1 2 -3 4
!model = model -1 2 -3 4
model = model 2 -3 4
";

/// DIMACS CNF files.
pub const FILES: [&[u8]; 6] = [
    b"p cnf 2 2\n1 2 0\n-1 0\n",
    b"p cnf 2 1\n1 x 0\n",
    b"p cnf 4 2\n1 3 0\n-2 0\n",
    b"p cnf 4 2\n2 3 0\n-2 -3 4 0\n",
    b"p cnf 3 2\n2 3 0\n-2\n",
    b"p cnf 1 x\n",
];
