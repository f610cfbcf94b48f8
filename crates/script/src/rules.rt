// The parts of a script.

/// One change of the register, with its mark.
#[derive(Clone, Copy)]
pub enum Act {
    Push(u8),
    Inject(u8),
    Pop(u8),
    Eject(u8),
}

/// A move from one state to another that carries out its acts, one after the other.
#[derive(Drop)]
pub struct Rule {
    pub from: u8,
    pub to: u8,
    pub acts: Vec<Act>,
}
