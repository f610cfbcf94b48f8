// Why a call is refused.

/// The tables of a store, by their numbers.
#[derive(Clone, Copy, PartialEq, Eq, Debug)]
pub enum Table {
    Versions = 1,
    Items = 2,
    /// Level cells or list cells.
    Cells = 3,
    Pairs = 4,
}

#[derive(Clone, Copy, PartialEq, Eq, Debug)]
pub enum Fault {
    /// The version was not handed out.
    UnknownVersion,
    /// The version has no item to take.
    Empty,
    /// The version is as long as a version may be.
    Full,
    /// The reservation is not one of this store's.
    Foreign,
    /// The reservation has no change left.
    Spent,
    /// The credit does not cover the changes; this table is the first that is too short.
    NoCredit(Table),
    /// The number of changes to set aside is not 1 to 255.
    Count,
}
