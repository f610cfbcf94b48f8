// From a script to its text.
ghost use Rattle.std.specs.Prelude.{◌≡◌, ℕ, List, ◌++◌, IfOk, Ok, OnOk};
ghost use Rattle.script.specs.Contents.{rule_content};
ghost use Rattle.script.specs.Reading.{reading};
ghost use Rattle.script.specs.Scripts.{content};
ghost use Rattle.script.specs.Tables.{line};
ghost use Rattle.script.specs.Texts.{act_text, goal_row, head_row, rule_row, start_row, text};
ghost use Rattle.script_writer.specs.Buffers.{Written};
ghost use Rattle.std.specs.List.{flat_map};

use crate::buffers::{WriteError, copy_whole};
use script::{Act, Rule, Script};
use std::alloc::{AllocError, Global};

// The clauses say what a call appends: a step from one text to the next, which no invariant of a text can hold.

#[tactic(auto, using(std::proofs::Common::append_assoc, std::proofs::lemmas::Fmt::decimal_digit))]
fn put_head(out: &mut Vec<u8>, script: &Script) -> Result<(), AllocError>
    ensures { OnOk result (out.new.items ≡ out.old.items ++ line (head_row (content script.now))) }
{
    let head = format!(in *out.allocator();
        "script\t1\t{}\t{}\t{}\n",
        script.states, script.width, script.depth
    )?;
    out.extend_from_slice(head.as_bytes())
}

#[tactic(auto, using(std::proofs::Common::append_assoc))]
fn put_start(out: &mut Vec<u8>, script: &Script) -> Result<(), AllocError>
    ensures { OnOk result (out.new.items ≡ out.old.items ++ line (start_row (content script.now))) }
{
    let state = format!(in *out.allocator(); "start\t{}\t", script.start)?;
    out.extend_from_slice(state.as_bytes())?;
    out.extend_from_slice(&script.marks)?;
    out.push(b'\n')?;
    Ok(())
}

/// What has a text of its own.
trait Put {
    ghost text: { Self → List ℕ };

    fn put(&self, out: &mut Vec<u8>) -> Result<(), AllocError>
        ensures { OnOk result (out.new.items ≡ out.old.items ++ text self.now) };
}

fn put_all<X: Put>(out: &mut Vec<u8>, items: &[X]) -> Result<(), AllocError>
    ensures { OnOk result (out.new.items ≡ out.old.items ++ flat_map X.text items.now) }
{
    for item in items {
        item.put(out)?;
    }
    Ok(())
}

// A byte is put as a goal. The marks, which are bytes too, are written without `put`.

impl Put for u8 {
    ghost text = { λ g. line (goal_row g) };

    fn put(&self, out: &mut Vec<u8>) -> Result<(), AllocError> {
        let row = format!(in *out.allocator(); "goal\t{self}\n")?;
        out.extend_from_slice(row.as_bytes())
    }
}

fn act_bytes(act: Act) -> [u8; 2]
    ensures { result ≡ act_text act }
{
    match act {
        Act::Push(mark) => [b'u', mark],
        Act::Inject(mark) => [b'i', mark],
        Act::Pop(mark) => [b'o', mark],
        Act::Eject(mark) => [b'e', mark],
    }
}

impl Put for Act {
    ghost text = { act_text };

    fn put(&self, out: &mut Vec<u8>) -> Result<(), AllocError> {
        out.extend_from_slice(&act_bytes(*self))
    }
}

impl Put for Rule {
    ghost text = { λ r. line (rule_row (rule_content r)) };

    #[tactic(auto, using(std::proofs::Common::append_assoc))]
    fn put(&self, out: &mut Vec<u8>) -> Result<(), AllocError> {
        let states = format!(in *out.allocator(); "rule\t{}\t{}\t", self.from, self.to)?;
        out.extend_from_slice(states.as_bytes())?;
        put_all(out, &self.acts)?;
        out.push(b'\n')?;
        Ok(())
    }
}

/// The text of the script, which reads as that script.
pub fn render(heap: Global, script: &Script) -> Result<Vec<u8>, AllocError>
    ensures written { IfOk result (λ out. out.items ≡ text (content script.now)) }
    ensures accepted { IfOk result (λ out. reading out.items ≡ Ok (content script.now)) }
{
    let mut out = Vec::new(heap);
    put_head(&mut out, script)?;
    put_start(&mut out, script)?;
    put_all(&mut out, &script.goals)?;
    put_all(&mut out, &script.rules)?;
    Ok(out)
}

/// Writes the text of the script into the buffer and answers how many bytes it has.
pub fn write(script: &Script, heap: Global, buffer: &mut [u8]) -> Result<usize, WriteError>
    ensures { Written (text (content script.now)) buffer.old buffer.new result }
{
    let text = render(heap, script)?;
    copy_whole(&text, buffer)
}
