// From a text to a script.
ghost use Rattle.std.specs.Prelude.{◌≡◌, ◌+◌, []};
ghost use Rattle.script.specs.Scripts.{content, rule_contents};
ghost use Rattle.script.specs.Reading.{goals_on, read_rows, reading, rules_on};
ghost use Rattle.script_reader.specs.Answers.{Answers, Exact, Replaced, Sized};
ghost use Rattle.script_reader.specs.Meanings.{goals_meaning};
ghost use Rattle.script_reader.specs.Places.{rows_left};

use crate::lines::{read_goal, read_head, read_rule, read_start};
use crate::reader::Reader;
use script::{ReadError, Refusal, Rule, Script};
use std::alloc::Global;

/// The longest text that is read, in bytes.
pub const LONGEST: usize = 4096;

/// The goals, as long as lines begin with their word.
fn read_goals(reader: &mut Reader, states: u8) -> Result<Vec<u8>, ReadError>
    ensures { Answers (goals_on (reader.old.line + 1) states [] (rows_left reader.old)) (goals_meaning reader.new) result }
{
    let mut goals = Vec::new(reader.heap);
    while reader.begins(b"goal") {
        let goal = read_goal(reader, states, goals.as_slice())?;
        goals.push(goal)?;
    }
    Ok(goals)
}

/// The rules, up to the end of the text.
fn read_rules(reader: &mut Reader, states: u8) -> Result<Vec<Rule>, ReadError>
    ensures { Answers (rules_on (reader.old.line + 1) states [] (rows_left reader.old)) rule_contents result }
{
    let mut rules = Vec::new(reader.heap);
    while !reader.at_end() {
        let rule = read_rule(reader, states, rules.len())?;
        rules.push(rule)?;
    }
    Ok(rules)
}

/// The script of the lines that stand behind the reader.
#[tactic(auto, using(crate::proofs::ReadLines::fields_behind), unfolding(script::specs::Reading::read_rows))]
fn read_script(mut reader: Reader) -> Result<Script, ReadError>
    requires { reader.line ≡ 0 }
    ensures { Answers (read_rows (rows_left reader.entry)) content result }
{
    let head = read_head(&mut reader)?;
    let start = read_start(&mut reader, head.states, head.width)?;
    let goals = read_goals(&mut reader, head.states)?;
    let rules = read_rules(&mut reader, head.states)?;
    Ok(Script {
        states: head.states,
        width: head.width,
        depth: head.depth,
        start: start.state,
        marks: start.marks,
        goals,
        rules,
    })
}

/// The script of a text, or the first question that is answered no.
pub fn parse(heap: Global, bytes: &[u8]) -> Result<Script, ReadError>
    ensures answer { Answers (reading bytes.now) content result }
    ensures exact { Exact bytes.now result }
    ensures sized { Sized bytes.now result }
{
    if bytes.is_empty() || bytes.len() > LONGEST {
        return Err(Refusal::Size.into());
    }
    read_script(Reader::new(heap, bytes))
}

/// Puts the script of a text in the place of another, which stays as it was where the text is refused.
pub fn read(script: &mut Script, heap: Global, bytes: &[u8]) -> Result<(), ReadError>
    ensures { Replaced (reading bytes.now) script.old script.new result }
{
    *script = parse(heap, bytes)?;
    Ok(())
}
