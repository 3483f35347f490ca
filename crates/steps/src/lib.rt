// What the calls ask of a store, and what they do to one record: hold it, take it into use, raise and lower it. That the store is
// lawful is a clause here and in the crates of the calls, since a bound has no invariant; a type around the store, as `Store` is
// around its contents, would be opened and closed again around each of these steps.
#![tactic(auto)]

pub mod fields;
pub mod freeing;
pub mod holding;
