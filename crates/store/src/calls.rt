// Calls on a store, and their answers, as values.
ghost use Rattle.std.specs.Prelude.{◌≡◌};
ghost use Rattle.store.specs.declared.calls.CallError.TheVariants.{Refused};

use crate::changes::Change;
use store_faults::Fault;

#[derive(Clone, Copy)]
pub enum Question {
    Longest,
    Number,
    Credit,
    Promised,
    Length(u16),
    /// Of a version, the item at a place.
    Item(u16, u16),
    Front(u16),
    Back(u16),
}

/// A call on a store. Open reservations lie in slots, which calls name by their place.
#[derive(Clone, Copy)]
pub enum Call<T> {
    Ask(Question),
    /// On a version.
    Make(u16, Change<T>),
    /// Under the reservation in a slot, on a version.
    MakeUnder(u8, u16, Change<T>),
    /// Into a slot, so many changes.
    Reserve(u8, u16),
    /// The reservation in a slot.
    Close(u8),
}

#[derive(Clone, Copy)]
pub enum Answer<T> {
    /// The longest length, the number, the credit or the promised count.
    Value(u32),
    Length(u16),
    Item(Option<T>),
    /// The new version, and the item taken.
    Made(u16, Option<T>),
    Reserved,
    Closed,
}

/// Why a call is not accepted.
#[derive(Clone, Copy, PartialEq, Eq, Debug)]
pub enum CallError {
    Refused(Fault),
    /// The slot is missing, empty where a reservation is needed, or taken where it has to be free: no call was made.
    NoSlot,
}

// derived, the conversion would not say which error it gives

impl From<Fault> for CallError {
    ghost from_gives = { λ fault error. error ≡ Refused fault };

    fn from(fault: Fault) -> CallError {
        CallError::Refused(fault)
    }
}

/// What becomes of a call.
pub type Outcome<T> = Result<Answer<T>, CallError>;
