// A two-list store as a store of deque versions.
ghost use Rattle.two_list.specs.Standing.{growing, standing};
ghost use Rattle.two_list.specs.Stores.{Grows, Turns, meaning_of};

use crate::two_list_store::TwoListStore;
use store::{Accounting, Change, DequeStore};
use store_faults::{Fault, Table};

impl<'a, T: Copy> DequeStore<T> for TwoListStore<'a, T> {
    ghost meaning = { λ s. meaning_of s };

    ghost sound = { λ s. standing s };

    ghost goes = { λ s v c t. Turns s v c t };

    ghost grows = { λ s t. Grows s t };

    ghost chains = { growing };

    fn longest(&self) -> u16 {
        self.longest
    }

    fn number(&self) -> u32 {
        self.number
    }

    fn credit(&self) -> u16 {
        self.versions
            .free()
            .min(self.lists.items.free().min(self.cell_share()))
    }

    fn promised(&self) -> u16 {
        self.promised
    }

    fn short_table(&self, count: u32) -> Option<Table> {
        if u32::from(self.versions.free()) < count {
            Some(Table::Versions)
        } else if u32::from(self.lists.items.free()) < count {
            Some(Table::Items)
        } else if u32::from(self.cell_share()) < count {
            Some(Table::Cells)
        } else {
            None
        }
    }

    fn length(&self, version: u16) -> Result<u16, Fault> {
        if version > self.versions.filled() {
            return Err(Fault::UnknownVersion);
        }
        let row = self.row(version);
        Ok(row.front.length + row.rear.length)
    }

    fn item(&self, version: u16, place: u16) -> Result<Option<T>, Fault> {
        let length = self.length(version)?;
        if place >= length {
            return Ok(None);
        }
        let row = self.row(version);
        if place < row.front.length {
            return Ok(Some(self.lists.item_of(row.front, place)));
        }
        Ok(Some(self.lists.item_of(row.rear, length - 1 - place)))
    }

    fn set_promised(&mut self, count: u16, by: &Accounting) {
        self.promised = count;
    }

    fn make(&mut self, version: u16, change: &Change<T>, by: &Accounting) -> (u16, Option<T>) {
        let row = self.row(version);
        let (row, taken) = self.lists.turn(row, change);
        (self.versions.push(row) + 1, taken)
    }
}
