// Changes that are set aside.
ghost use Rattle.std.specs.Prelude.{◌≡◌};

use store_faults::Fault;

/// What a reservation holds, and what lies in a slot: the number of its store, and the changes that are left.
#[derive(Clone, Copy)]
pub struct Held {
    pub(super) number: u32,
    pub(super) left: u16,
}

/// Changes set aside on one store. It has no `Drop`, so it cannot fall: only closing it ends it.
pub struct Reservation {
    pub(super) held: Held,
}

/// What a refused close answers: why, and the reservation.
pub struct Kept {
    pub fault: Fault,
    pub reservation: Reservation,
}

impl Kept {
    /// Why, without the reservation: the slot that it was taken from still holds it.
    pub(super) fn into_fault(self) -> Fault
        ensures { result ≡ self.fault }
    {
        let Kept {
            fault,
            reservation: Reservation { held: _ },
        } = self;
        fault
    }
}
