// Changing a version's lists, behind what is filled.
ghost use Rattle.std.specs.Prelude.{◌≡◌, ◌+◌, ◌<◌, Some};
ghost use Rattle.store.specs.Deques.{first, taken};
ghost use Rattle.store.specs.declared.changes.Change.TheVariants.{Push, Pop};
ghost use Rattle.two_list.specs.Sides.{list_of};
ghost use Rattle.two_list.specs.Stores.{sides_in};
ghost use Rattle.two_list.specs.Writes.{Enough, Refills, Roomy, Turned};

use crate::lists::Lists;
use crate::rebuild::rebuild;
use crate::rows::{ListCell, Side, VersionRow};
use store::Change;

// `Roomy` ties a version to the lists that it lies in, so neither type can have it as an invariant.

impl<'a, T: Copy> Lists<'a, T> {
    /// The version with an item more in front.
    fn lay(&mut self, row: VersionRow, item: T) -> VersionRow
        requires { Roomy self.old row }
        ensures { Turned self.old row (Push item) self.new result }
    {
        let item = self.items.push(item);
        let next = row.front.cell;
        let cell = self.cells.push(ListCell { item, next });
        let front = Side {
            cell,
            length: row.front.length + 1,
        };
        VersionRow { front, ..row }
    }

    /// The version, rebuilt where its front list is empty: half of the rear list, rounded down, stays, and the rest
    /// goes over, and begins at the last of the new cells.
    fn refill(&mut self, row: VersionRow) -> VersionRow
        requires { Roomy self.old row × (0 < row.front.length + row.rear.length) }
        ensures { Refills self.old row self.new result }
    {
        if row.front.length > 0 {
            return row;
        }
        let first = self.cells.filled();
        let stay = row.rear.length / 2;
        rebuild(&mut self.cells, row.rear, stay);
        VersionRow {
            front: Side {
                cell: self.cells.filled() - 1,
                length: row.rear.length - stay,
            },
            rear: Side {
                cell: first,
                length: stay,
            },
        }
    }

    /// The version without its first item, and that item.
    fn take(&mut self, row: VersionRow) -> (VersionRow, T)
        requires { Roomy self.old row × (0 < row.front.length + row.rear.length) }
        ensures lists { Turned self.old row Pop self.new result.0 }
        ensures item { Some result.1 ≡ first (list_of (sides_in self.old row)) }
    {
        let row = self.refill(row);
        let end = self.cells.get(row.front.cell);
        let front = Side {
            cell: end.next,
            length: row.front.length - 1,
        };
        (VersionRow { front, ..row }, self.items.get(end.item))
    }

    /// The version after a change, and the item taken. What a change does in front, its twin does at the rear.
    pub(super) fn turn(&mut self, row: VersionRow, change: &Change<T>) -> (VersionRow, Option<T>)
        requires { Roomy self.old row × Enough change.now (row.front.length + row.rear.length) }
        ensures lists { Turned self.old row change.now self.new result.0 }
        ensures item { result.1 ≡ taken change.now (list_of (sides_in self.old row)) }
    {
        match change {
            Change::Push(item) => (self.lay(row, *item), None),
            Change::Inject(item) => (self.lay(row.mirrored(), *item).mirrored(), None),
            Change::Pop => {
                let (rest, item) = self.take(row);
                (rest, Some(item))
            }
            Change::Eject => {
                let (rest, item) = self.take(row.mirrored());
                (rest.mirrored(), Some(item))
            }
        }
    }
}
