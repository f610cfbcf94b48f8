// How a reservation is used, over any store.
#![tactic(auto)]

ghost use Rattle.store_examples.specs.Examples.{PushedReserved};
ghost use Rattle.std.specs.Prelude.{OnOk};
ghost use Rattle.store.specs.declared.changes.Change.TheVariants.{Push};

use store::DequeStore;
use store_faults::Fault;

/// A push that is set aside first. The reservation is closed on every way.
pub fn push_reserved<T: Copy, S: DequeStore<T>>(
    store: &mut S,
    version: u16,
    item: T,
) -> Result<u16, Fault>
    ensures answer { PushedReserved (S.meaning store.old) version item (S.meaning store.new) result }
    ensures kind { OnOk result (S.goes store.old version (Push item) store.new) }
{
    let mut reservation = store.reserve(1)?;
    let pushed = store.push_under(version, item, &mut reservation);
    match store.close(reservation) {
        Ok(()) => pushed,
        Err(_) => unreachable(),
    }
}
