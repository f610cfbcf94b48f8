// The two-list kind of store: versions that are pairs of lists, in tables that a caller lends.
#![tactic(auto)]

mod kind;
mod lent_table;
mod lists;
mod opening;
mod reading;
mod rebuild;
mod rows;
mod two_list_store;
mod writing;

pub use rows::{ListCell, Side, VersionRow};
pub use two_list_store::TwoListStore;
