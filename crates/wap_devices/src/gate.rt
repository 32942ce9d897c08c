//! What a job of many passes before it begins.

/// Where each of many jobs that run side by side passes, before it begins: a test holds them up
/// there to see that two of them are at work at once. No clause of any call depends on it.
pub trait Gate {
    /// The job of this number passes, and may be held up here.
    fn pass(&self, job: usize);
}

/// A gate that holds up no job.
#[derive(Clone, Copy)]
pub struct NoGate;

impl Gate for NoGate {
    fn pass(&self, _job: usize) {}
}
