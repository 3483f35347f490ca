// Giving records back, over any store: when the last reference to them goes, and when a collection finds them in dead
// rings.
#![tactic(auto)]

pub mod records;
pub mod release;
