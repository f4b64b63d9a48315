/// What the machine is at: no solve; a running, a paused or an ended one; or shut, or dead for want
/// of memory.
#[derive(Clone, Copy, Debug, PartialEq, Eq)]
pub enum Phase {
    Idle,
    Live,
    Paused,
    Ended,
    Shut,
    Dead,
}
