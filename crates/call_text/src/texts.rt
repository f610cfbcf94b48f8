// A text of calls.
use call_lines::{Line, Opening};

/// A text of calls, by its lines.
#[derive(Drop)]
pub struct CallText {
    pub opening: Opening,
    pub lines: Vec<Line>,
}
