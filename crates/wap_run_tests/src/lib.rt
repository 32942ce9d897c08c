//! Tests of whole runs that need threads.
#![tactic(auto)]

#[cfg(test)]
mod meeting;
#[cfg(test)]
mod prepare;
#[cfg(test)]
mod replay;
