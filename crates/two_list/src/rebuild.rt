// The rebuild of a version's lists, where an item is to be taken from an empty one.
ghost use Rattle.std.specs.Prelude.{◌≡◌, ◌+◌, ◌-◌, ◌<◌, if◌then◌else◌, nat_lt};
ghost use Rattle.two_list.specs.Writes.{Rebuildable, Rebuilds};

use crate::lent_table::LentTable;
use crate::rows::{ListCell, Side};

/// The link of the cell at a place: forwards where its item stays, backwards where it goes over.
fn link(place: u16, middle: u16) -> u16
    requires { place < 65000 }
    ensures { result ≡ (if nat_lt place middle then place + 1 else place - 1) }
{
    if place < middle {
        place + 1
    } else {
        place.saturating_sub(1)
    }
}

/// Lays the far list anew, behind what is filled: so many of its items stay, and the rest goes over.
pub(super) fn rebuild(cells: &mut LentTable<ListCell>, far: Side, stay: u16)
    requires { Rebuildable cells.old far stay }
    ensures { Rebuilds cells.old far stay cells.new }
{
    let middle = cells.filled() + stay;
    let mut at = far.cell;
    // a step for each link, and no index: the list is walked by its cells, in the table that grows meanwhile
    for _ in 0..far.length {
        let cell = cells.get(at);
        let next = link(cells.filled(), middle);
        cells.push(ListCell {
            item: cell.item,
            next,
        });
        at = cell.next;
    }
}
