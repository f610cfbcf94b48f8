// Texts of calls on a store: reading them, and answering them line by line.
#![tactic(auto)]

mod answering;
mod errors;
mod fields;
mod parsing;
mod reading;
mod texts;

pub use answering::answer;
pub use errors::TextError;
pub use reading::read;
pub use texts::CallText;
