// Tests of collections at the ends of what is allowed, and of what a host may do with a store beside its calls.
#![tactic(auto)]

#[cfg(test)]
mod tests;
#[cfg(test)]
mod walked;
