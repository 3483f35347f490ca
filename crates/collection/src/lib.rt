// The collection of dead rings, over any store: mark, scan with restore, and gather, each through the candidate list.
#![tactic(auto)]

pub mod lists;
