// What a card's three metadata blocks hold: the generation record, the activity record and the quick-sync bitmap.
#![tactic(auto)]

pub mod activity;
pub mod fault;
pub mod generation;
pub mod making;
pub mod reading;
