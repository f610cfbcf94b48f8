// The two-list store.
ghost use Rattle.std.specs.Prelude.{◌<◌, ◌≤◌};
ghost use Rattle.store.specs.Meanings.{least};
ghost use Rattle.two_list.specs.Filling.{free};
ghost use Rattle.two_list.specs.Tables.{RowsFit, shares};

use crate::lent_table::LentTable;
use crate::lists::Lists;
use crate::rows::VersionRow;

/// A store whose versions are pairs of lists, in tables that a caller lends.
#[derive(Drop)]
pub struct TwoListStore<'a, T> {
    pub(super) versions: LentTable<'a, VersionRow>,
    pub(super) lists: Lists<'a, T>,
    pub(super) longest: u16,
    pub(super) number: u32,
    pub(super) promised: u16,
    ghost bounded: { (0 < longest) × (longest ≤ 1000) },
    ghost covered: { promised ≤ least (shares (free versions) (free lists.items) (free lists.cells) longest) },
    ghost fitting: { RowsFit versions.places.now versions.filled lists.cells.filled longest },
}
