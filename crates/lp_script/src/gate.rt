// What is told before each solve.
use std::sync::Wait;

/// Is told of each solve before it is made. It may wait, and answers nothing.
pub trait Gate {
    /// Is called before solve `nth` of a session, counted from 1. It may wait.
    fn before<R: Wait>(&self, rt: &R, session: u32, nth: u64);
}

/// Returns at once.
#[derive(Clone, Copy)]
pub struct NeverHolds;

impl Gate for NeverHolds {
    // Does nothing.
    fn before<R: Wait>(&self, _rt: &R, _session: u32, _nth: u64) {}
}
