// A change on a version as a row of fields.
ghost use Rattle.call_lines.specs.Lines.{change_row};
ghost use Rattle.script.specs.Tables.{join};
ghost use Rattle.std.specs.Prelude.{Some};

use std::fmt;
use store::Change;

/// A change, and the version that it is made on.
#[derive(Clone, Copy)]
pub(super) struct ChangeRow(pub(super) u16, pub(super) Change<u16>);

impl fmt::Display for ChangeRow {
    ghost output = { λ r. Some (join 9 (change_row r.0 r.1)) };

    fn fmt<W: fmt::Write>(&self, f: &mut fmt::Formatter<W>) -> fmt::Result {
        let ChangeRow(v, change) = *self;
        match change {
            Change::Push(x) => write!(f, "push\t{v}\t{x}"),
            Change::Inject(x) => write!(f, "inject\t{v}\t{x}"),
            Change::Pop => write!(f, "pop\t{v}"),
            Change::Eject => write!(f, "eject\t{v}"),
        }
    }
}
