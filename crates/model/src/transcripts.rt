// Calls with their replies, as they are printed.
ghost use Rattle.std.specs.Prelude.{Some};
ghost use Rattle.model.specs.Texts.{transcript};

use crate::calls::{Call, Reply};
use std::fmt;

// Each call with its reply, as many as both lists have.
#[derive(Clone, Copy)]
pub struct Transcript<'a> {
    pub calls: &'a [Call],
    pub replies: &'a [Reply],
}

impl fmt::Display for Transcript<'_> {
    ghost output = { λ t. Some (transcript t.calls.now t.replies.now) };

    fn fmt<W: fmt::Write>(&self, f: &mut fmt::Formatter<W>) -> fmt::Result {
        for (call, reply) in self.calls.iter().zip(self.replies) {
            writeln!(f, "{call} -> {reply}")?;
        }
        Ok(())
    }
}
