// Where the worker waits that finds nothing to do.
use gi_room::Gate;
use std::thread;
use std::time::Duration;

// How long it rests, in milliseconds.
const REST: u64 = 1;

/// Gives the processor up, and lets the worker look again after a rest. So a session that waits for
/// its next line costs next to nothing.
#[derive(Drop)]
pub struct RestingGate<'a> {
    pub rt: &'a HostRuntime,
}

impl<'a> Gate for RestingGate<'a> {
    fn turn(&self) {
        thread::sleep(self.rt, Duration::from_millis(REST));
    }
}
