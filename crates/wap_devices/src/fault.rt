//! The fault that sources and sinks share.

/// A read or a write failed. It comes only where the device's count of faults rose.
#[derive(Clone, Copy, Debug, PartialEq, Eq)]
pub struct Failed;
