//! The libraries Lang, Float, String and URL: what their functions mean, and the functions.
//!
//! - `texts`: What the functions of the standard libraries of WMLScript (WAP-194) do with
//!   characters, and how values become these and come of them.
//! - `laws`: Laws of the two tables of library functions: of calls, which the code of units has,
//!   and of the functions themselves. It runs nothing.
#![tactic(auto)]

mod call;
mod fault;
mod float;
mod function;
mod generator;
mod lang;
pub mod laws;
mod outcome;
mod piece;
mod string;
pub mod texts;
mod url;

pub use call::{call_pure, is_pure};
pub use fault::LibFault;
pub use function::{
    FLOAT, FloatFunction, Function, LANG, LangFunction, STRING, StringFunction, URL, UrlFunction,
};
pub use generator::Gen;
pub use outcome::LibOut;
pub use piece::{Conversion, Piece, Specifier};
