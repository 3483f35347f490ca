// Record kinds: how many links and bytes a record has, and how it keeps them.
#![tactic(auto)]

pub mod card;
pub mod kind;
pub mod pair;
#[cfg(test)]
mod tests;
