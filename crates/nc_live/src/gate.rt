//! The gate that a driver's turn passes before it is made.

/// A gate for the turns of the drivers' threads. Each turn passes it right before it is made, while no lock is held. A
/// turn that the caller makes once the threads have ended does not pass it.
pub trait Gate: Sync {
    /// Returns once hart `hart` may make turn `turn` of its thread. Each thread counts its turns from 0.
    fn before(&self, hart: u8, turn: u64);
}

/// A gate that lets every turn begin at once.
pub struct NoGate;

impl Gate for NoGate {
    fn before(&self, _hart: u8, _turn: u64) {}
}
