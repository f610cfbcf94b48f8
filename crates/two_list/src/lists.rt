// The lists of all versions, in two of the lent tables.
ghost use Rattle.two_list.specs.Tables.{Closed};

use crate::lent_table::LentTable;
use crate::rows::{ListCell, Side};

/// The items of the lists, and the cells that link them.
#[derive(Drop)]
pub(super) struct Lists<'a, T> {
    pub(super) items: LentTable<'a, T>,
    pub(super) cells: LentTable<'a, ListCell>,
    ghost closed: { Closed cells.places.now items.filled cells.filled },
}

impl<'a, T: Copy> Lists<'a, T> {
    ghost use Rattle.std.specs.Prelude.{◌≡◌, ◌<◌, slice_index_or};
    ghost use Rattle.two_list.specs.Chains.{behind};
    ghost use Rattle.two_list.specs.Tables.{Starts, items_of};

    /// The cell that is so many links behind a filled one.
    fn behind(&self, cell: u16, links: u16) -> u16
        requires { cell < self.now.cells.filled }
        ensures { (result ≡ behind self.now.cells.places.now cell links) × (result < self.now.cells.filled) }
    {
        let mut at = cell;
        // one step over and over, and no index: a fold over the numbers leaves one more goal, and reads no plainer
        for _ in 0..links {
            at = self.cells.get(at).next;
        }
        at
    }

    /// The item at a place of a side, counted from the side's end.
    pub(super) fn item_of(&self, side: Side, place: u16) -> T
        requires { Starts self.now.cells.filled side × (place < side.length) }
        ensures { result ≡ slice_index_or (items_of self.now.items.places.now self.now.cells.places.now side) place result }
    {
        let cell = self.cells.get(self.behind(side.cell, place));
        self.items.get(cell.item)
    }
}
