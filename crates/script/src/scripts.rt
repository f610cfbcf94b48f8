// The script, which keeps its rules by its type.
ghost use Rattle.std.specs.Prelude.{◌≡◌, true};
ghost use Rattle.script.specs.Contents.{content_of};
ghost use Rattle.script.specs.Soundness.{sound};

use crate::rules::Rule;

/// A script: its states are numbered from 0, its rules from 1.
#[derive(Drop)]
pub struct Script {
    pub states: u8,
    pub width: u8,
    pub depth: u8,
    pub start: u8,
    pub marks: Vec<u8>,
    pub goals: Vec<u8>,
    pub rules: Vec<Rule>,
    ghost lawful: { sound (content_of states width depth start marks.items goals.items rules.items) ≡ true },
}
