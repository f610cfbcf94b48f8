// Reading a store.
ghost use Rattle.std.specs.Prelude.{◌≡◌, ◌/◌, ◌≤◌};
ghost use Rattle.two_list.specs.Filling.{free};
ghost use Rattle.two_list.specs.Stores.{row_at};

use crate::rows::VersionRow;
use crate::two_list_store::TwoListStore;

impl<'a, T: Copy> TwoListStore<'a, T> {
    /// The changes that the free list cells suffice for, whatever they are.
    pub(super) fn cell_share(&self) -> u16
        ensures { result ≡ free self.now.lists.cells / self.now.longest }
    {
        self.lists.cells.free() / self.longest
    }

    pub(super) fn row(&self, version: u16) -> VersionRow
        requires { version ≤ self.now.versions.filled }
        ensures { result ≡ row_at self.now version }
    {
        if version == 0 {
            return VersionRow::default();
        }
        self.versions.get(version - 1)
    }
}
