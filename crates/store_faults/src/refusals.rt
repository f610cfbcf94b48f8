// The numbers of refusals.
ghost use Rattle.std.specs.Prelude.{◌≡◌};
ghost use Rattle.store_faults.specs.Faults.{refusal_of, table_number, table_of};

use crate::faults::{Fault, Table};

impl Table {
    pub fn number(self) -> u8
        ensures { result ≡ table_number self }
    {
        self as u8
    }
}

impl Fault {
    /// The number of the refusal. `NoCredit` has a field, so no cast gives it.
    pub fn number(self) -> u8
        ensures { result ≡ (refusal_of self).0 }
    {
        match self {
            Fault::UnknownVersion => 1,
            Fault::Empty => 2,
            Fault::Full => 3,
            Fault::Foreign => 4,
            Fault::Spent => 5,
            Fault::NoCredit(_) => 6,
            Fault::Count => 7,
        }
    }

    /// The table that it names, if it names one.
    pub fn table(self) -> Option<Table>
        ensures { table_of result ≡ (refusal_of self).1 }
    {
        match self {
            Fault::NoCredit(table) => Some(table),
            _ => None,
        }
    }
}
