// Reading script texts.
#![tactic(auto)]

mod field;
mod letters;
mod line;
mod lines;
mod numbers;
mod parts;
mod reader;
mod reading;

pub use parts::split_once;
pub use reading::{LONGEST, parse, read};
