// The record store: fixed tables that a host lends, and the calls on them.
#![tactic(auto)]

mod access;
mod bytes;
mod collects;
pub mod contents;
mod counts;
pub mod fields;
mod fills;
mod holds;
mod links;
mod looks;
pub mod makes;
mod performs;
pub mod plays;
pub mod records;
pub mod stack;
pub mod table;
pub mod tables;
