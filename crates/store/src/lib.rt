// Stores of deque versions: what every kind of store shares, proved once.
#![tactic(auto)]

mod calls;
mod changes;
mod deque_store;
mod replayer;
mod replaying;
mod reservations;
mod theorems;

pub use calls::{Answer, Call, CallError, Outcome, Question};
pub use changes::Change;
pub use deque_store::{Accounting, DequeStore};
pub use replaying::replay;
pub use reservations::{Held, Kept, Reservation};
pub use theorems::worked_example;
