// Writing script texts.
#![tactic(auto)]

mod buffers;
mod writing;

pub use buffers::{WriteError, copy_whole};
pub use writing::{render, write};
