// Packing-line scripts: what a script is, what its text is, and how a text is read.
#![tactic(auto)]

mod errors;
mod refusals;
mod rules;
mod scripts;
mod theorems;

pub use errors::ReadError;
pub use refusals::Refusal;
pub use rules::{Act, Rule};
pub use scripts::Script;
pub use theorems::{reading_inverts_writing, worked_examples};
