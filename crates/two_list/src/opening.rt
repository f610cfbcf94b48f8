// Opening a store.
ghost use Rattle.two_list.specs.Stores.{Opens};

use crate::lent_table::LentTable;
use crate::lists::Lists;
use crate::rows::{ListCell, VersionRow};
use crate::two_list_store::TwoListStore;

impl<'a, T: Copy> TwoListStore<'a, T> {
    /// An empty store over lent tables. A longest length of 0 counts as 1, one above 1,000 as 1,000.
    pub fn new(
        versions: &'a mut [VersionRow],
        items: &'a mut [T],
        cells: &'a mut [ListCell],
        longest: u16,
        number: u32,
    ) -> Self
        ensures { Opens versions.old items.old cells.old longest number result }
    {
        TwoListStore {
            versions: LentTable::new(versions),
            lists: Lists {
                items: LentTable::new(items),
                cells: LentTable::new(cells),
            },
            longest: longest.clamp(1, 1000),
            number,
            promised: 0,
        }
    }
}
