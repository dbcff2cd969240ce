//! A hook round the turns of workers, by which tests hold them up.
use rs_model::Role;

/// What is called round each turn of a worker, by that worker.
pub trait Gate {
    /// The worker with that number has the role's task, and makes a turn with it next.
    fn before_turn(&self, worker: u8, role: Role);

    /// The worker has made the turn. It makes another with the task, or gives it back.
    fn after_turn(&self, worker: u8, role: Role);
}

/// A gate that does nothing.
pub struct NoGate;

impl Gate for NoGate {
    fn before_turn(&self, _worker: u8, _role: Role) {}

    fn after_turn(&self, _worker: u8, _role: Role) {}
}
