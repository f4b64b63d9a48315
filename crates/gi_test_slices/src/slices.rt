ghost use Rattle.std.specs.Prelude.{◌≡◌};

use crate::pigeons::PIGEONS;
use gi_cdcl::{Brake, NoBrake};
use gi_core::Core;
use gi_model::{Cause, Now, Reply, Verdict};
use gi_test_lines::goes;
use std::alloc::Global;

/// A brake that tells the same mark again and again.
#[derive(Drop)]
struct Still {
    mark: u64,
    greatest: u64,
    count: u32,
}

impl Brake for Still {
    ghost use Rattle.std.specs.Prelude.{ℕ};

    ghost top = { λ b. b.greatest };

    ghost asks = { λ b. b.count };

    ghost follows = { λ a b. Unit {0} };

    fn see(&mut self) -> u64 {
        self.greatest = self.greatest.max(self.mark);
        self.count += 1;
        self.mark
    }

    ghost reflexive = { λ b. tt };

    ghost transitive = { λ a b c f g. tt };
}

/// A brake that tells this mark.
fn brake_at(mark: u64) -> Still
    ensures top { result.greatest ≡ 0 }
    ensures asks { result.count ≡ 0 }
{
    Still {
        mark,
        greatest: 0,
        count: 0,
    }
}

/// Whether the slice ended by mark 1, or else with a model.
fn is_end(now: &Now, stopped: bool) -> bool {
    match now {
        Now::Ended(Verdict::Unknown(Cause::Stopped(1))) => stopped,
        Now::Ended(Verdict::Sat(_)) => !stopped,
        _ => false,
    }
}

/// Whether the slice learnt nothing, and ended so.
fn is_told(reply: &Reply, stopped: bool) -> bool {
    match reply {
        Reply::Worked { news, now } => news.is_empty() && is_end(now, stopped),
        _ => false,
    }
}

/// Whether the work on the first solve, over one variable, ends as this mark wants.
fn works_at(alloc: Global, mark: u64) -> bool {
    let mut core = Core::new(alloc);
    if !goes(alloc, &mut core, "vars 1", "vars 1")
        || !goes(alloc, &mut core, "solve 5", "started 1")
    {
        return false;
    }
    let mut brake = brake_at(mark);
    let work = core.work(&mut brake);
    work.mark == mark && is_told(&work.reply, mark == 1)
}

#[test]
fn a_mark_stops_the_work(rt: HostRuntime) {
    assert!(rt; works_at(rt.alloc(), 0));
    assert!(rt; works_at(rt.alloc(), 1));
}

/// How many clauses the next slice of work learns, if it leaves its solve running, or 0.
fn slice(core: &mut Core) -> usize {
    let work = core.work(&mut NoBrake::new());
    match &work.reply {
        Reply::Worked {
            news,
            now: Now::Live,
        } => news.len(),
        _ => 0,
    }
}

/// Whether a machine works on the pigeons from now on.
fn takes_pigeons(alloc: Global, core: &mut Core) -> bool {
    goes(alloc, core, PIGEONS, "loaded cnf 42 133")
        && goes(alloc, core, "solve 1000000", "started 1")
}

/// Whether a solve that has learnt 64 clauses is paused and resumed.
fn rests(alloc: Global, core: &mut Core) -> bool {
    goes(alloc, core, "pause", "paused 1 64") && goes(alloc, core, "resume", "running 1 64")
}

/// 32 times the Luby numbers.
const LENGTHS: [usize; 7] = [32, 32, 64, 32, 32, 64, 128];

/// The first slice whose length isn't 32 times the Luby number of its place. Before the third the solve is paused and resumed.
fn first_uneven(alloc: Global, core: &mut Core) -> Option<usize> {
    for (place, length) in LENGTHS.iter().enumerate() {
        if place == 2 && !rests(alloc, core) {
            return Some(place);
        }
        if slice(core) != *length {
            return Some(place);
        }
    }
    None
}

#[test]
fn lengths_of_slices(rt: HostRuntime) {
    let mut core = Core::new(rt.alloc());
    assert!(rt; takes_pigeons(rt.alloc(), &mut core));
    assert_eq!(rt; first_uneven(rt.alloc(), &mut core), None);
}
