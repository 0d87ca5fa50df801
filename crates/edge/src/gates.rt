//! Gates that workers pass: where a test holds a worker up, or lets it go.

/// Where a worker stands when it passes a gate.
#[derive(Clone, Copy)]
pub enum Point {
    /// Before its first turn.
    Start,
    /// Between two turns.
    Turn,
    /// After its last turn.
    Done,
}

/// What workers pass between their turns. It may wait, and it answers nothing and changes nothing.
pub trait Gate: Sync {
    /// Lets the worker pass, numbered from 0, when its time has come.
    fn pass(&self, worker: u32, at: Point);
}

/// A gate that lets everyone pass at once.
#[derive(Clone, Copy)]
pub struct FreeGate;

impl Gate for FreeGate {
    fn pass(&self, _worker: u32, _at: Point) {}
}

/// The gate that is there, or else one that lets everyone pass at once.
impl<G: Gate> Gate for Option<G> {
    fn pass(&self, worker: u32, at: Point) {
        if let Some(gate) = self {
            gate.pass(worker, at);
        }
    }
}
