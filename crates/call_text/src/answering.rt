// The lines that answer a text of calls.
ghost use Rattle.std.specs.Prelude.{◌≡◌, ◌<◌, ◌++◌, length, map, slice_index, IfOk, MatchResult, OnOk};
ghost use Rattle.call_text.specs.Reports.{NoneOrAll, Reported, call_of, item_fields, report, reports};
ghost use Rattle.std.specs.List.{zip};
ghost use Rattle.std.specs.String.{string_bytes};
ghost use Rattle.store.specs.Meanings.{list_of_version};

use call_lines::{AnswerLine, Line};
use std::alloc::{AllocError, Global};
use store::{Answer, Call, DequeStore, Held, Outcome, Question, replay};

/// The call that a line makes: for a list, the question for its length.
fn call_of(line: Line) -> Call<u16>
    ensures { result ≡ call_of line }
{
    match line {
        Line::Call(call) => call,
        Line::List(version) => Call::Ask(Question::Length(version)),
    }
}

fn calls_of(heap: Global, lines: &[Line]) -> Result<Vec<Call<u16>>, AllocError>
    ensures { IfOk result (λ calls. calls.items ≡ map call_of lines.now) }
{
    lines.iter().copied().map(call_of).collect(heap)
}

/// The item of a version at a place that it has.
fn item_of<S: DequeStore<u16>>(store: &S, version: u16, place: u16) -> u16
    requires { place < length (list_of_version (S.meaning store.now) version) }
    ensures { result ≡ slice_index (list_of_version (S.meaning store.now) version) place }
{
    store.item(version, place).unwrap().unwrap()
}

// Below, the store is read and `out` is written to: one value of both would only be lent anew at each call. The clauses
// say what a call appends, a step from one text to the next.

/// Writes the items of a version, each behind a tab.
fn write_items<S: DequeStore<u16>>(
    store: &S,
    version: u16,
    out: &mut String,
) -> Result<(), AllocError>
    ensures { OnOk result (string_bytes out.new ≡ string_bytes out.old ++ item_fields (list_of_version (S.meaning store.now) version)) }
{
    // a store gives an item by its place, and has no iterator over them; a version that was not handed out has none
    for place in 0..store.length(version).unwrap_or(0) {
        let item = item_of(store, version, place);
        write!(out, "\t{item}")?;
    }
    Ok(())
}

/// Writes what answers a line, by what the store holds after all calls.
fn write_report<S: DequeStore<u16>>(
    store: &S,
    line: Line,
    answer: Outcome<u16>,
    out: &mut String,
) -> Result<(), AllocError>
    ensures { OnOk result (string_bytes out.new ≡ string_bytes out.old ++ report (S.meaning store.now).versions line answer) }
{
    match (line, answer) {
        (Line::List(version), Ok(Answer::Length(_))) => {
            out.push_str("list")?;
            write_items(store, version, out)
        }
        _ => write!(out, "{}", AnswerLine { answer }),
    }
}

/// Writes a line for each line and its answer.
fn write_reports<S: DequeStore<u16>>(
    store: &S,
    lines: &[Line],
    answers: &[Outcome<u16>],
    out: &mut String,
) -> Result<(), AllocError>
    ensures { OnOk result (string_bytes out.new ≡ string_bytes out.old ++ reports (S.meaning store.now).versions (zip lines.now answers.now)) }
{
    for (line, answer) in lines.iter().zip(answers) {
        write_report(store, *line, *answer, out)?;
        out.push('\n')?;
    }
    Ok(())
}

/// Carries out the calls of the lines, and answers each line by a line.
pub fn answer<S: DequeStore<u16>>(
    heap: Global,
    store: &mut S,
    slots: &mut [Option<Held>],
    lines: &[Line],
) -> Result<Vec<u8>, AllocError>
    ensures { MatchResult result (λ text. Reported S.meaning S.goes S.grows store.old slots.old lines.now text.items store.new slots.new) (λ _. NoneOrAll S.meaning S.goes S.grows store.old slots.old lines.now store.new slots.new) }
{
    let calls = calls_of(heap, lines)?;
    let answers = replay(heap, store, slots, &calls)?;
    let mut text = String::new(heap);
    write_reports(store, lines, &answers, &mut text)?;
    Ok(text.into_bytes())
}
