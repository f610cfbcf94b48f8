// Laws of reading and writing: each function's contract is a theorem, and the function only carries it.
ghost use Rattle.script.specs.Claims.{AcceptedIsText, TextIsAccepted, Worked};

/// What is accepted is the text of the script that was read, and each script's text is accepted.
pub fn reading_inverts_writing()
    ensures accepted { AcceptedIsText }
    ensures written { TextIsAccepted }
{}

/// Texts that are refused, with the number and the line of each.
pub fn worked_examples()
    ensures { Worked }
{}
