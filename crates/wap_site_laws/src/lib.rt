//! Laws alone, which run nothing: what sessions show of sites with other scripts, programs or pages
//! in place of those of a site, and what is denied.
//!
//! - `exchange`: What follows where other scripts stand in place of those of a site: units in place
//!   of the sources that they agree with, and any in place of scripts that were only ever denied.
//! - `unasked`: What follows where other pages stand in place of those for which a session never
//!   asks.
//! - `programs`: Sites whose scripts are sources of programs, beside the sites of the units that
//!   these are compiled to.
//! - `pages`: Pages of a store in which scripts stand as sources, and the judged pages in which
//!   units stand for them.
//! - `denial`: Goes to scripts and calls of scripts that may not be called.
#![tactic(auto)]

pub mod denial;
pub mod exchange;
pub mod pages;
pub mod programs;
pub mod unasked;
