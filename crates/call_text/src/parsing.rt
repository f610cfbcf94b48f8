// What a line may say, read as far as it goes: whether it is written in just this way is asked afterwards.

mod calls;
mod changes;
mod lines;

pub(super) use lines::{parse_line, parse_opening};
