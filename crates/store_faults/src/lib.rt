// Why a call on a store is refused, and the number of each refusal.
#![tactic(auto)]

mod faults;
mod refusals;

pub use faults::{Fault, Table};
