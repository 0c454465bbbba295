ghost use Rattle.std.specs.Prelude.{◌≡◌};
ghost use Rattle.ring_workers.specs.declared.gate.Pass.TheVariants as pass;

/// The answer of a gate.
#[derive(Clone, Copy, Debug, PartialEq, Eq)]
pub enum Pass {
    /// The item is handled.
    Go,
    /// The worker ends, with the item in hand.
    Halt,
}

/// Looks at each item of each worker, for tests of schedules.
pub trait Gate {
    /// Called after the worker with this number took an item and before it handles it. Turns count
    /// the worker's items from 1 on, and stay at the greatest `u64`.
    fn enter(&self, worker: usize, turn: u64) -> Pass;

    /// Called after the item of that turn was handled.
    fn leave(&self, worker: usize, turn: u64);
}

/// The gate that lets each item pass.
#[derive(Clone, Copy, Debug)]
pub struct OpenGate;

impl Gate for OpenGate {
    /// Lets the item pass, whatever the worker and the turn.
    fn enter(&self, _worker: usize, _turn: u64) -> Pass
        ensures { result ≡ pass.Go }
    {
        Pass::Go
    }

    /// Does nothing.
    fn leave(&self, _worker: usize, _turn: u64) {}
}
