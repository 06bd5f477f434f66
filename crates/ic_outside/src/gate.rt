/// A place that a worker passes before it handles a message, where a test may hold it. Passing
/// changes nothing that a contract sees.
pub trait Gate {
    /// The worker with this number passes, on its way to the message in this slot.
    fn pass(&self, worker: u32, slot: u32);
}

/// The gate that holds nobody.
#[derive(Clone, Copy, Debug)]
pub struct OpenGate;

impl Gate for OpenGate {
    fn pass(&self, _worker: u32, _slot: u32) {}
}
