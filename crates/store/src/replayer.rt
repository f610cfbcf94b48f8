// One call at a time on any store, with the open reservations in slots.
ghost use Rattle.std.specs.Prelude.{◌≡◌};
ghost use Rattle.store.specs.Replayers.{Carried};
ghost use Rattle.store.specs.Calls.{Holds, answer_to, free};
ghost use Rattle.store.specs.Replies.{reply_of};
ghost use Rattle.store.specs.declared.calls.Call.TheVariants.{Ask, Make, MakeUnder, Reserve, Close};

use crate::calls::{Answer, Call, CallError, Outcome, Question};
use crate::changes::Change;
use crate::deque_store::DequeStore;
use crate::reservations::{Held, Kept, Reservation};

/// A store, and the slots in which its open reservations lie: lent, and named in calls by their numbers.
#[derive(Drop)]
pub(super) struct Replayer<'a, S> {
    pub(super) store: &'a mut S,
    pub(super) slots: &'a mut [Option<Held>],
}

impl<S> Replayer<'_, S> {
    /// Carries out one call.
    pub(super) fn carry_out<T: Copy>(&mut self, call: Call<T>) -> Outcome<T>
    where
        S: DequeStore<T>,
        ensures { Carried S.meaning S.goes S.grows self.old call self.new result }
    {
        match call {
            Call::Ask(question) => self.ask(question),
            Call::Make(version, change) => self.make(version, change),
            Call::MakeUnder(slot, version, change) => self.make_under(slot, version, change),
            Call::Reserve(slot, count) => self.reserve(slot, count),
            Call::Close(slot) => self.close(slot),
        }
    }

    fn ask<T: Copy>(&self, question: Question) -> Outcome<T>
    where
        S: DequeStore<T>,
        ensures { reply_of result ≡ answer_to (S.meaning self.now.store.now) question }
    {
        Ok(match question {
            Question::Longest => Answer::Value(u32::from(self.store.longest())),
            Question::Number => Answer::Value(self.store.number()),
            Question::Credit => Answer::Value(u32::from(self.store.credit())),
            Question::Promised => Answer::Value(u32::from(self.store.promised())),
            Question::Length(version) => Answer::Length(self.store.length(version)?),
            Question::Item(version, place) => Answer::Item(self.store.item(version, place)?),
            Question::Front(version) => Answer::Item(self.store.front(version)?),
            Question::Back(version) => Answer::Item(self.store.back(version)?),
        })
    }

    fn make<T: Copy>(&mut self, version: u16, change: Change<T>) -> Outcome<T>
    where
        S: DequeStore<T>,
        ensures { Carried S.meaning S.goes S.grows self.old (Make version change) self.new result }
    {
        let (made, item) = self.store.change(version, &change)?;
        Ok(Answer::Made(made, item))
    }

    fn make_under<T: Copy>(&mut self, slot: u8, version: u16, change: Change<T>) -> Outcome<T>
    where
        S: DequeStore<T>,
        ensures { Carried S.meaning S.goes S.grows self.old (MakeUnder slot version change) self.new result }
    {
        let held = self.held_in(slot).ok_or(CallError::NoSlot)?;
        let mut reservation = Reservation { held };
        let answer = self.store.change_under(version, &change, &mut reservation);
        // taken apart before a refusal leaves, since a reservation cannot fall
        let Reservation { held } = reservation;
        let (made, item) = answer?;
        self.slots[usize::from(slot)] = Some(held);
        Ok(Answer::Made(made, item))
    }

    fn reserve<T: Copy>(&mut self, slot: u8, count: u16) -> Outcome<T>
    where
        S: DequeStore<T>,
        ensures { Carried S.meaning S.goes S.grows self.old (Reserve slot count) self.new result }
    {
        if !self.is_free(slot) {
            return Err(CallError::NoSlot);
        }
        let Reservation { held } = self.store.reserve(count)?;
        self.slots[usize::from(slot)] = Some(held);
        Ok(Answer::Reserved)
    }

    fn close<T: Copy>(&mut self, slot: u8) -> Outcome<T>
    where
        S: DequeStore<T>,
        ensures { Carried S.meaning S.goes S.grows self.old (Close slot) self.new result }
    {
        let held = self.held_in(slot).ok_or(CallError::NoSlot)?;
        self.store
            .close(Reservation { held })
            .map_err(Kept::into_fault)?;
        self.slots[usize::from(slot)] = None;
        Ok(Answer::Closed)
    }

    /// The reservation in a slot.
    fn held_in(&self, slot: u8) -> Option<Held>
        ensures { Holds self.now.slots.now slot result }
    {
        *self.slots.get(usize::from(slot))?
    }

    fn is_free(&self, slot: u8) -> bool
        ensures { result ≡ free self.now.slots.now slot }
    {
        matches!(self.slots.get(usize::from(slot)), Some(None))
    }
}
