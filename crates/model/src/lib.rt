// What the record store means: heads, calls, answers and refusals, and the theory of them.
#![tactic(auto)]

pub mod calls;
pub mod changes;
pub mod colours;
pub mod fresh;
pub mod heads;
pub mod refusals;
pub mod replies;
pub mod taken;
pub mod transcripts;
