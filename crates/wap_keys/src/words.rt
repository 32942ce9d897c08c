//! The words of the program's commands.

mod arguments;
mod browsing;
mod numbers;
mod pages;
mod word;
mod words;

pub use numbers::{
    DEFAULT_BUDGET, DEFAULT_CACHE, DEFAULT_SEED, DEFAULT_WORKERS, LEAST_BUDGET, LEAST_CACHE,
    LEAST_WORKERS, MOST_CACHE, MOST_WORKERS,
};
pub use words::{Browse, Command, PageCommand, Replay, Resume, read_words};
