// The plain rows of the lent tables.
ghost use Rattle.std.specs.Prelude.{◌≡◌};

/// An item of a list, by its place, and the cell of the item after it. Cells name one another by place, and own
/// nothing: versions share them, and they lie in a table that a caller lends.
#[derive(Clone, Copy, Default)]
pub struct ListCell {
    pub item: u16,
    pub next: u16,
}

/// One list of a version: the cell of its end item, and its length.
#[derive(Clone, Copy, Default)]
pub struct Side {
    pub cell: u16,
    pub length: u16,
}

/// A version: its front list and its rear list.
#[derive(Clone, Copy, Default)]
pub struct VersionRow {
    pub front: Side,
    pub rear: Side,
}

impl VersionRow {
    /// The version, seen from the rear.
    pub(super) fn mirrored(self) -> VersionRow
        ensures { result ≡ record { front = self.rear; rear = self.front } }
    {
        VersionRow {
            front: self.rear,
            rear: self.front,
        }
    }
}
