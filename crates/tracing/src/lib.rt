// The four walks of a collection, by their steps, over any store.
#![tactic(auto)]

pub mod gather;
pub mod mark;
pub mod restore;
pub mod scan;
