// Calls on a store as lines of text, and the lines of their answers.
#![tactic(auto)]

mod answers;
mod changes;
mod lines;

pub use answers::AnswerLine;
pub use lines::{Line, Opening};
