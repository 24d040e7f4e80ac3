//! What is called round each read of a worker.

/// Is called by each worker of a play round each of its reads: before it begins, and after it was
/// counted. A client's reads are numbered from 0.
pub trait Gate {
    fn before(&self, client: u32, call: u64);

    fn after(&self, client: u32, call: u64);
}

/// A gate that does nothing.
#[derive(Clone, Copy, Debug)]
pub struct OpenGate;

impl Gate for OpenGate {
    fn before(&self, _client: u32, _call: u64) {}

    fn after(&self, _client: u32, _call: u64) {}
}
