// Where a worker waits that has nothing to do.

/// Lets a worker through each time that it found nothing to do. A gate that yields the processor
/// keeps an idle worker from using it up.
pub trait Gate {
    /// Returns when the worker may look again.
    fn turn(&self);
}

/// Lets a worker through at once, so that it looks again and again.
#[derive(Drop)]
pub struct OpenGate;

impl Gate for OpenGate {
    fn turn(&self) {}
}
