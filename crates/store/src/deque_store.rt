// The interface to a store of deque versions, whatever its kind.
ghost use Rattle.std.specs.Prelude.{◌≡◌, ℕ, ◌≤◌};
ghost use Rattle.std.specs.List.{slice_get};
ghost use Rattle.store.specs.Changes.{Added, Changed, Counted, Covered, Fits, Makes, Ready, Shown, Took};
ghost use Rattle.store.specs.Deques.{first, last};
ghost use Rattle.store_faults.specs.Faults.{table_of};
ghost use Rattle.store.specs.Kinds.{Accounts, Chains, GoesOn, Undisturbed};
ghost use Rattle.store.specs.Meanings.{Meaning, Sound, credit, list_of_version, short_table, with_promised};
ghost use Rattle.store.specs.Questions.{belongs};
ghost use Rattle.store.specs.Reservations.{AddedUnder, ChangedUnder, Closed, Reserved, TookUnder};
ghost use Rattle.store.specs.declared.changes.Change.{Change};
ghost use Rattle.store.specs.declared.changes.Change.TheVariants.{Push, Inject, Pop, Eject};

use crate::changes::Change;
use crate::reservations::{Held, Kept, Reservation};
use store_faults::{Fault, Table};

/// What only this module can make: it lets the bodies below, and nobody else, call what has to be sure first.
pub struct Accounting(());

/// Versions of deques of items that are copied whole. A kind gives the questions and the two guarded calls;
/// asking, refusing and accounting are written here, once for every kind.
pub trait DequeStore<T: Copy> {
    /// What the store means.
    ghost meaning: { Self → Meaning T };

    /// What holds of every store.
    ghost sound: { (s : Self) → Sound (meaning s) };

    // `goes` and `grows` tell of a step between two stores, which no invariant of a store can hold: so each call that may
    // alter a store has a clause `kind`.

    /// What the kind promises of an accepted change: the store before, the version, the change, the store after.
    ghost goes: { Self → ℕ → Change T → Self → Type 0 };

    /// What the kind promises of every call: the store before and the store after.
    ghost grows: { Self → Self → Type 0 };

    ghost chains: { Chains grows };

    /// The length that no list passes.
    fn longest(&self) -> u16
        ensures { result ≡ (meaning self.now).longest };

    /// The number that the store was opened with.
    fn number(&self) -> u32
        ensures { result ≡ (meaning self.now).number };

    /// The further changes that are sure to find room.
    fn credit(&self) -> u16
        ensures { result ≡ credit (meaning self.now) };

    /// The changes that reservations have set aside.
    fn promised(&self) -> u16
        ensures { result ≡ (meaning self.now).promised };

    /// The first table that is too short for so many changes.
    fn short_table(&self, count: u32) -> Option<Table>
        ensures { table_of result ≡ short_table (meaning self.now) count };

    /// The length of a version.
    fn length(&self, version: u16) -> Result<u16, Fault>
        ensures { Counted (meaning self.now) version result };

    /// The item at a place counted from 0, or none.
    fn item(&self, version: u16, place: u16) -> Result<Option<T>, Fault>
        ensures { Shown (meaning self.now) version (slice_get (list_of_version (meaning self.now) version) place) result };

    /// Sets the promised count.
    fn set_promised(&mut self, count: u16, by: &Accounting)
        requires { count ≤ credit (meaning self.old) }
        ensures meaning { meaning self.new ≡ with_promised (meaning self.old) count }
        ensures kind { Undisturbed goes self.old self.new × grows self.old self.new };

    /// Makes a change that is sure.
    fn make(&mut self, version: u16, change: &Change<T>, by: &Accounting) -> (u16, Option<T>)
        requires { Ready (meaning self.old) version change.now }
        ensures answer { Makes (meaning self.old) version change.now (meaning self.new) result }
        ensures kind { goes self.old version change.now self.new × grows self.old self.new };

    /// The first item, or none.
    #[tactic(auto, using(crate::proofs::Ends::first_nth))]
    fn front(&self, version: u16) -> Result<Option<T>, Fault>
        ensures { Shown (meaning self.now) version (first (list_of_version (meaning self.now) version)) result }
    {
        self.item(version, 0)
    }

    /// The last item, or none.
    #[tactic(auto, using(crate::proofs::Ends::last_nth, crate::proofs::Ends::last_none))]
    fn back(&self, version: u16) -> Result<Option<T>, Fault>
        ensures { Shown (meaning self.now) version (last (list_of_version (meaning self.now) version)) result }
    {
        let length = self.length(version)?;
        if length == 0 {
            return Ok(None);
        }
        self.item(version, length - 1)
    }

    /// Whether the version was handed out and its length lets the change be made.
    fn check_fit(&self, version: u16, change: &Change<T>) -> Result<(), Fault>
        ensures { Fits (meaning self.now) version change.now result }
    {
        let length = self.length(version)?;
        match change {
            Change::Push(_) | Change::Inject(_) if length >= self.longest() => Err(Fault::Full),
            Change::Pop | Change::Eject if length == 0 => Err(Fault::Empty),
            _ => Ok(()),
        }
    }

    /// What is promised with so many changes more, where the credit covers them.
    fn promised_with(&self, count: u16) -> Result<u16, Fault>
        ensures { Covered (meaning self.now) count result }
    {
        let wanted = u32::from(self.promised()) + u32::from(count);
        if wanted > u32::from(self.credit()) {
            return Err(Fault::NoCredit(self.short_table(wanted).unwrap()));
        }
        Ok(wanted as u16)
    }

    /// Whether the reservation is one of this store's.
    fn owns(&self, reservation: &Reservation) -> bool
        ensures { result ≡ belongs (meaning self.now) reservation.now }
    {
        reservation.held.number == self.number() && reservation.held.left <= self.promised()
    }

    /// Any change: the new version, and the item taken.
    fn change(&mut self, version: u16, change: &Change<T>) -> Result<(u16, Option<T>), Fault>
        ensures answer { Changed (meaning self.old) version change.now (meaning self.new) result }
        ensures kind { GoesOn goes grows self.old version change.now self.new result }
    {
        self.check_fit(version, change)?;
        self.promised_with(1)?;
        Ok(self.make(version, change, &Accounting(())))
    }

    // A version and a change stand apart, as a version stands alone in the questions: a pair would be made for each call
    // only to be taken apart. The four changes keep the names that the subject gives them, here and under a reservation:
    // each is two lines over `change` or `change_under`.

    /// A version with the item in front.
    fn push(&mut self, version: u16, item: T) -> Result<u16, Fault>
        ensures answer { Added (meaning self.old) version (Push item) (meaning self.new) result }
        ensures kind { GoesOn goes grows self.old version (Push item) self.new result }
    {
        let (added, _) = self.change(version, &Change::Push(item))?;
        Ok(added)
    }

    /// A version with the item behind.
    fn inject(&mut self, version: u16, item: T) -> Result<u16, Fault>
        ensures answer { Added (meaning self.old) version (Inject item) (meaning self.new) result }
        ensures kind { GoesOn goes grows self.old version (Inject item) self.new result }
    {
        let (added, _) = self.change(version, &Change::Inject(item))?;
        Ok(added)
    }

    /// A version without the first item, and that item.
    fn pop(&mut self, version: u16) -> Result<(u16, T), Fault>
        ensures answer { Took (meaning self.old) version Pop (meaning self.new) result }
        ensures kind { GoesOn goes grows self.old version Pop self.new result }
    {
        let (rest, item) = self.change(version, &Change::Pop)?;
        Ok((rest, item.unwrap()))
    }

    /// A version without the last item, and that item.
    #[tactic(auto, using(crate::proofs::Ends::last_some))]
    fn eject(&mut self, version: u16) -> Result<(u16, T), Fault>
        ensures answer { Took (meaning self.old) version Eject (meaning self.new) result }
        ensures kind { GoesOn goes grows self.old version Eject self.new result }
    {
        let (rest, item) = self.change(version, &Change::Eject)?;
        Ok((rest, item.unwrap()))
    }

    /// Sets a number of changes aside.
    fn reserve(&mut self, count: u16) -> Result<Reservation, Fault>
        ensures answer { Reserved (meaning self.old) count (meaning self.new) result }
        ensures kind { Accounts goes grows self.old self.new result }
    {
        if !(1..=255).contains(&count) {
            return Err(Fault::Count);
        }
        let promised = self.promised_with(count)?;
        self.set_promised(promised, &Accounting(()));
        let held = Held {
            number: self.number(),
            left: count,
        };
        Ok(Reservation { held })
    }

    /// Gives back what the reservation has left, and ends it.
    fn close(&mut self, reservation: Reservation) -> Result<(), Kept>
        ensures answer { Closed (meaning self.old) reservation (meaning self.new) result }
        ensures kind { Accounts goes grows self.old self.new result }
    {
        if !self.owns(&reservation) {
            return Err(Kept {
                fault: Fault::Foreign,
                reservation,
            });
        }
        let Reservation { held } = reservation;
        self.set_promised(self.promised() - held.left, &Accounting(()));
        Ok(())
    }

    /// Any change under a reservation.
    fn change_under(
        &mut self,
        version: u16,
        change: &Change<T>,
        reservation: &mut Reservation,
    ) -> Result<(u16, Option<T>), Fault>
        ensures answer { ChangedUnder (meaning self.old) reservation.old version change.now (meaning self.new) reservation.new result }
        ensures kind { GoesOn goes grows self.old version change.now self.new result }
    {
        self.check_fit(version, change)?;
        if !self.owns(reservation) {
            return Err(Fault::Foreign);
        }
        if reservation.held.left == 0 {
            return Err(Fault::Spent);
        }
        self.set_promised(self.promised() - 1, &Accounting(()));
        reservation.held.left -= 1;
        Ok(self.make(version, change, &Accounting(())))
    }

    /// `push` under a reservation.
    fn push_under(
        &mut self,
        version: u16,
        item: T,
        reservation: &mut Reservation,
    ) -> Result<u16, Fault>
        ensures answer { AddedUnder (meaning self.old) reservation.old version (Push item) (meaning self.new) reservation.new result }
        ensures kind { GoesOn goes grows self.old version (Push item) self.new result }
    {
        let (added, _) = self.change_under(version, &Change::Push(item), reservation)?;
        Ok(added)
    }

    /// `inject` under a reservation.
    fn inject_under(
        &mut self,
        version: u16,
        item: T,
        reservation: &mut Reservation,
    ) -> Result<u16, Fault>
        ensures answer { AddedUnder (meaning self.old) reservation.old version (Inject item) (meaning self.new) reservation.new result }
        ensures kind { GoesOn goes grows self.old version (Inject item) self.new result }
    {
        let (added, _) = self.change_under(version, &Change::Inject(item), reservation)?;
        Ok(added)
    }

    /// `pop` under a reservation.
    fn pop_under(&mut self, version: u16, reservation: &mut Reservation) -> Result<(u16, T), Fault>
        ensures answer { TookUnder (meaning self.old) reservation.old version Pop (meaning self.new) reservation.new result }
        ensures kind { GoesOn goes grows self.old version Pop self.new result }
    {
        let (rest, item) = self.change_under(version, &Change::Pop, reservation)?;
        Ok((rest, item.unwrap()))
    }

    /// `eject` under a reservation.
    #[tactic(auto, using(crate::proofs::Ends::last_some))]
    fn eject_under(
        &mut self,
        version: u16,
        reservation: &mut Reservation,
    ) -> Result<(u16, T), Fault>
        ensures answer { TookUnder (meaning self.old) reservation.old version Eject (meaning self.new) reservation.new result }
        ensures kind { GoesOn goes grows self.old version Eject self.new result }
    {
        let (rest, item) = self.change_under(version, &Change::Eject, reservation)?;
        Ok((rest, item.unwrap()))
    }
}
