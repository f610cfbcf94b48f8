// From the bytes of a text of calls to what is printed for it.
ghost use Rattle.replay_stores.specs.Printed.{AnsweredOnTwoLists, AnsweredOver, Printed, bad_line};
ghost use Rattle.std.specs.Prelude.{◌≡◌, IfOk};

use call_lines::Opening;
use call_text::{CallText, TextError, answer, read};
use std::alloc::{AllocError, Global};
use two_list::{ListCell, TwoListStore, VersionRow};

/// A text may have this many bytes.
pub(super) const LONGEST: usize = 8_000_000;

/// Reservations can lie open in this many slots.
const SLOTS: usize = 16;

/// Opens a store over these tables, and answers the lines.
fn answer_over(
    heap: Global,
    text: &CallText,
    versions: &mut [VersionRow],
    items: &mut [u16],
    cells: &mut [ListCell],
) -> Result<Vec<u8>, AllocError>
    ensures { IfOk result (λ printed. AnsweredOver versions.old items.old cells.old text.now.opening text.now.lines.items printed.items) }
{
    let Opening {
        longest,
        number,
        ..
    } = text.opening;
    let mut slots = [None; SLOTS];
    let mut store = TwoListStore::new(versions, items, cells, longest, number);
    answer(heap, &mut store, &mut slots, &text.lines)
}

/// Answers the lines on a store with tables of the sizes that the opening asks for.
fn answer_on_two_lists(heap: Global, text: &CallText) -> Result<Vec<u8>, AllocError>
    ensures { IfOk result (λ printed. AnsweredOnTwoLists text.now.opening text.now.lines.items printed.items) }
{
    let Opening {
        versions,
        items,
        cells,
        ..
    } = text.opening;
    let mut versions = vec![in heap; VersionRow::default(); usize::from(versions)]?;
    let mut items = vec![in heap; 0; usize::from(items)]?;
    let mut cells = vec![in heap; ListCell::default(); usize::from(cells)]?;
    answer_over(heap, text, &mut versions, &mut items, &mut cells)
}

fn name_bad_line(heap: Global, line: usize) -> Result<Vec<u8>, AllocError>
    ensures { IfOk result (λ printed. printed.items ≡ bad_line line) }
{
    Ok(format!(in heap; "bad\t{line}\n")?.into_bytes())
}

/// What is printed for a text.
pub(super) fn print(heap: Global, text: &[u8]) -> Result<Vec<u8>, AllocError>
    ensures { IfOk result (λ printed. Printed text.now printed.items) }
{
    if text.len() > LONGEST {
        return name_bad_line(heap, 0);
    }
    match read(heap, text) {
        Ok(calls) => answer_on_two_lists(heap, &calls),
        Err(TextError::Line(line)) => name_bad_line(heap, line),
        Err(TextError::Memory) => Err(AllocError),
    }
}
