// Who is told of the chunks that workers begin.

/// Is told when a worker begins a chunk, in the worker's own thread. It has no say in any result.
pub trait Gate: Sync {
    fn chunk_begins(&self, worker: u32, chunk: u64);
}

/// A gate that does nothing.
#[derive(Clone, Copy, Debug)]
pub struct NoGate;

impl Gate for NoGate {
    fn chunk_begins(&self, _worker: u32, _chunk: u64) {}
}
