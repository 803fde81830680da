// What a worker passes on its way.

/// It is called by a worker, of this number, at its turns: the first of them is 0.
pub trait Gate {
    /// Called before each round.
    fn arrive(&self, worker: u32, turn: u64);

    /// Whether the worker stays, asked when it has a leaf and before it works on it. One that is sent away leaves the leaf behind.
    fn keep(&self, worker: u32, turn: u64) -> bool;
}

/// A gate that does nothing.
#[derive(Clone, Copy, Drop, Debug)]
pub struct OpenGate;

impl Gate for OpenGate {
    fn arrive(&self, _worker: u32, _turn: u64) {}

    fn keep(&self, _worker: u32, _turn: u64) -> bool {
        true
    }
}
