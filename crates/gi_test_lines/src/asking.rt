use gi_cdcl::NoBrake;
use gi_core::Core;
use gi_model::{Call, Phase, Reply};

/// Works until no solve is running, or for 100,000 slices.
fn work_off(core: &mut Core) {
    for _slice in 0..100_000 {
        if core.phase() != Phase::Live {
            return;
        }
        let _ = core.work(&mut NoBrake::new());
    }
}

/// The answer to a wait, once no solve is running.
fn wait(core: &mut Core) -> Option<Reply> {
    work_off(core);
    if core.phase() == Phase::Live {
        return None;
    }
    Some(core.step(&Call::Wait))
}

/// The answer to a call, behind the work that a wait needs; None where the call doesn't fit, or a
/// solve doesn't end.
pub fn ask(core: &mut Core, call: &Call) -> Option<Reply> {
    if !call.fits() {
        return None;
    }
    match call {
        Call::Wait => wait(core),
        _ => Some(core.step(call)),
    }
}
