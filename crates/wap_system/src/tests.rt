//! Tests of the store, the source and the sink over the system, and over a system that fails.

mod expected;
mod folders;
mod odd;
mod streams;
