ghost use Rattle.std.specs.Prelude.{◌≡◌, ◌+◌, ◌<◌, ◌≤◌, ℕ, [], IfOk, IsTrue, ◌↔◌};
ghost use Rattle.gi_store.specs.StoreView.{IsWithin};
ghost use Rattle.gi_cdcl.specs.Searching.{AreKnown};
ghost use Rattle.gi_cdcl.specs.Invariant.{AreAttached, SearchInvariant};
ghost use Rattle.gi_cdcl.specs.Finish.{HasRun, HasEnded};
ghost use Rattle.gi_cdcl.specs.Sound.{IsTrailSound};

use crate::brake::Brake;
use crate::search_state::{Bounds, Progress, SearchState};
use crate::slice::Slice;
use crate::step::{StepResult, take_step};
use gi_lit::{Lit, Lits};
use gi_store::Store;
use std::alloc::AllocError;

/// Asks the brake, keeps the greatest mark, and tells whether it reaches the serial.
fn ask<B: Brake>(brake: &mut B, mark: &mut u64, serial: u64) -> bool
    requires asks { B.asks brake.old < 4294967295 }
    requires mark { mark.old ≡ B.top brake.old }
    ensures mark { mark.new ≡ B.top brake.new }
    ensures asks { B.asks brake.new ≡ B.asks brake.old + 1 }
    ensures follows { B.follows brake.old brake.new }
    ensures reached { IsTrue result ↔ (serial ≤ mark.new) }
{
    let seen = brake.see();
    *mark = (*mark).max(seen);
    *mark >= serial
}

/// Steps until the slice ends.
fn run<B: Brake>(
    state: &mut SearchState,
    store: &mut Store,
    assumed: &[Lit],
    bounds: Bounds,
    brake: &mut B,
    progress: &mut Progress,
) -> Result<Slice, AllocError>
    requires limit { (1 ≤ bounds.limit) × (bounds.limit ≤ 1024) }
    requires going { SearchInvariant state.old.prop store.old state.old.trail assumed.now
        state.old.vars_passed state.old.assumed_passed }
    requires news { progress.old.news.items ≡ [] }
    requires mark { (progress.old.mark ≡ B.top brake.old) × (progress.old.mark < bounds.serial) }
    requires asks { B.asks brake.old ≡ 1 }
    ensures ran { HasRun store.old store.new bounds.limit progress.new.news.items progress.new.mark
        (B.top brake.new) }
    ensures follows { B.follows brake.old brake.new }
    ensures ended { IfOk result
        (HasEnded state.new.prop store.old store.new state.new.trail assumed.now bounds.limit
        bounds.serial progress.new.mark (B.asks brake.new) progress.new.news.items) }
{
    'steps: loop {
        match take_step(state, store, assumed, &mut progress.news)? {
            StepResult::Decided => {}
            StepResult::Learnt => {
                if ask(brake, &mut progress.mark, bounds.serial) {
                    return Ok(Slice::Braked);
                }
                if progress.news.len() >= bounds.limit as usize {
                    return Ok(Slice::Learned);
                }
            }
            StepResult::Refuted => {
                if ask(brake, &mut progress.mark, bounds.serial) {
                    return Ok(Slice::Braked);
                }
                return Ok(Slice::Unsat(Lits::new(state.alloc)));
            }
            StepResult::Sat(values) => return Ok(Slice::Sat(values)),
            StepResult::Failed(failing) => return Ok(Slice::Unsat(failing)),
        }
    }
}

/// Asks the brake, and searches if it lets it: makes room for the store's variables, and runs.
pub(crate) fn start<B: Brake>(
    state: &mut SearchState,
    store: &mut Store,
    assumed: &[Lit],
    bounds: Bounds,
    brake: &mut B,
    progress: &mut Progress,
) -> Result<Slice, AllocError>
    requires limit { (1 ≤ bounds.limit) × (bounds.limit ≤ 1024) }
    requires assumed { IsWithin store.old.vars assumed.now }
    requires known { AreKnown store.old }
    requires attached { AreAttached state.old.prop store.old state.old.trail }
    requires sound { IsTrailSound store.old state.old.trail }
    requires root { state.old.trail.level_starts ≡ [] }
    requires news { progress.old.news.items ≡ [] }
    requires mark { progress.old.mark ≡ B.top brake.old }
    requires asks { B.asks brake.old ≡ 0 }
    ensures ran { HasRun store.old store.new bounds.limit progress.new.news.items progress.new.mark
        (B.top brake.new) }
    ensures follows { B.follows brake.old brake.new }
    ensures ended { IfOk result
        (HasEnded state.new.prop store.old store.new state.new.trail assumed.now bounds.limit
        bounds.serial progress.new.mark (B.asks brake.new) progress.new.news.items) }
{
    if ask(brake, &mut progress.mark, bounds.serial) {
        return Ok(Slice::Braked);
    }
    let vars = store.vars();
    state.trail.grow(vars)?;
    state.order.grow(vars)?;
    state.order.rewind();
    state.vars_passed = 0;
    state.assumed_passed = 0;
    run(state, store, assumed, bounds, brake, progress)
}
