// What each kind of line says.
ghost use Rattle.std.specs.Prelude.{◌≡◌, ◌+◌, OnOk};
ghost use Rattle.script.specs.Contents.{rule_content};
ghost use Rattle.script.specs.Reading.{above, goal_of, head_of, rule_of, start_of};
ghost use Rattle.script_reader.specs.Answers.{Answers, Gives};
ghost use Rattle.script_reader.specs.Meanings.{head_meaning, start_meaning};
ghost use Rattle.script_reader.specs.Places.{Onward, rows_left};

use crate::reader::Reader;
use script::{ReadError, Refusal, Rule};

const MOST_GOALS: usize = 8;

const MOST_RULES: usize = 64;

// Below, the number of states goes beside the reader: it is known only once the first line is read.

/// What the first line says.
#[derive(Clone, Copy)]
pub(crate) struct Head {
    pub(crate) states: u8,
    pub(crate) width: u8,
    pub(crate) depth: u8,
}

/// The line `script`, 1, states, width, depth.
#[tactic(auto, using(crate::proofs::ReadLines::fields_behind), unfolding(script::specs::Reading::head_of))]
pub(crate) fn read_head(reader: &mut Reader) -> Result<Head, Refusal>
    ensures value { Gives (head_of (reader.old.line + 1) (rows_left reader.old)) head_meaning result }
    ensures onward { OnOk result (Onward reader.old reader.new) }
{
    let mut line = reader.next_line(b"script", 5)?;
    line.field().number(1, 1)?;
    let states = line.field().number(1, 64)?;
    let width = line.field().number(1, 255)?;
    let depth = line.field().number(0, 255)?;
    Ok(Head {
        states,
        width,
        depth,
    })
}

/// What the second line says.
#[derive(Drop)]
pub(crate) struct Start {
    pub(crate) state: u8,
    pub(crate) marks: Vec<u8>,
}

/// The line `start`, state, marks.
#[tactic(auto, using(crate::proofs::ReadLines::fields_behind), unfolding(script::specs::Reading::start_of))]
pub(crate) fn read_start(reader: &mut Reader, states: u8, width: u8) -> Result<Start, ReadError>
    ensures value { Answers (start_of (reader.old.line + 1) states width (rows_left reader.old)) start_meaning result }
    ensures onward { OnOk result (Onward reader.old reader.new) }
{
    let mut line = reader.next_line(b"start", 3)?;
    let state = line.field().state(states)?;
    let marks = line.field().marks(reader.heap, width)?;
    Ok(Start { state, marks })
}

/// Whether the goal is above the last one before it.
#[tactic(auto, using(crate::proofs::Rising::above_none, crate::proofs::Rising::above_last))]
fn rises(before: &[u8], goal: u8) -> bool
    ensures { result ≡ above before.now goal }
{
    before.last().is_none_or(|last| *last < goal)
}

/// The line `goal`, state, behind the goals before it.
#[tactic(auto, using(crate::proofs::ReadLines::fields_behind), unfolding(script::specs::Reading::goal_of))]
pub(crate) fn read_goal(reader: &mut Reader, states: u8, before: &[u8]) -> Result<u8, Refusal>
    ensures value { result ≡ goal_of (reader.old.line + 1) states before.now (rows_left reader.old) }
    ensures onward { OnOk result (Onward reader.old reader.new) }
{
    let mut line = reader.next_line(b"goal", 2)?;
    let goal = line.field().state(states)?;
    if !rises(before, goal) || before.len() >= MOST_GOALS {
        return Err(Refusal::Sequence(line.number()));
    }
    Ok(goal)
}

/// The line `rule`, from, to, acts, behind as many rules as are counted.
#[tactic(auto, using(crate::proofs::ReadLines::fields_behind), unfolding(script::specs::Reading::rule_of))]
pub(crate) fn read_rule(reader: &mut Reader, states: u8, count: usize) -> Result<Rule, ReadError>
    ensures value { Answers (rule_of (reader.old.line + 1) states count (rows_left reader.old)) rule_content result }
    ensures onward { OnOk result (Onward reader.old reader.new) }
{
    let mut line = reader.next_line(b"rule", 4)?;
    let from = line.field().state(states)?;
    let to = line.field().state(states)?;
    let acts = line.field().acts(reader.heap)?;
    if count >= MOST_RULES {
        return Err(Refusal::Sequence(line.number()).into());
    }
    Ok(Rule { from, to, acts })
}
