// A keyboard at a store: bytes are typed, and each line is answered.
#![tactic(auto)]

pub mod desk;
pub mod laws;
pub mod typing;
