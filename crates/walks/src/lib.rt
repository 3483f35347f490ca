// Depth-first walks over the links of any store, in a loop that keeps its place in a table of the store's own.
#![tactic(auto)]

pub mod run;
pub mod stacked;
pub mod steps;
