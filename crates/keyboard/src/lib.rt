// From the bytes of a line to a call, and from an answer to bytes.
#![tactic(auto)]

mod answers;
mod commands;
mod forms;
pub mod laws;
mod lines;
mod numbers;
mod words;

pub use answers::Answer;
pub use answers::writing::answer;
pub use commands::command;
pub use lines::Line;
