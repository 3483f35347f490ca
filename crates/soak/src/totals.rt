// What is counted of the calls and their replies. Sums wrap, which no run comes near.
use model::calls::{Call, Reply};
use std::fmt;

// All replies so far, in order, folded into one number.
#[derive(Clone, Copy)]
struct Digest(u64);

impl Default for Digest {
    fn default() -> Digest {
        Digest(14695981039346656037)
    }
}

// A number for each reply: other replies have other numbers. This is no `impl From`, since neither type is of this crate; nor
// does a From go from usize to u64, so `as` stands here.
fn code(reply: Reply) -> u64 {
    match reply {
        Reply::Number(n) => (n as u64).wrapping_mul(4),
        Reply::Nothing => 1,
        Reply::Done => 2,
        Reply::Refused(why) => u64::from(why.number()) * 4 + 3,
    }
}

impl Digest {
    fn fold(&mut self, reply: Reply) {
        self.0 = (self.0 ^ code(reply)).wrapping_mul(1099511628211);
    }
}

#[derive(Clone, Copy, Default)]
pub(crate) struct Totals {
    calls: usize,
    // makes that were not refused
    makes: usize,
    // give-ups that links, drops and collections reported
    given: usize,
    // how often makes were held against records in use and give-ups, and how often they were equal
    checks: usize,
    balanced: usize,
    // rounds in which all that was looked at had its bytes, and rounds that left no record in use
    survived: usize,
    emptied: usize,
    // records in use at the end
    pub(crate) in_use: usize,
    digest: Digest,
}

// One more where the fact holds.
fn counted(so_far: usize, fact: bool) -> usize {
    so_far.wrapping_add(usize::from(fact))
}

impl Totals {
    // Counts a call that was answered so.
    pub(crate) fn note(&mut self, call: Call, reply: Reply) {
        self.calls = self.calls.wrapping_add(1);
        self.digest.fold(reply);
        match (call, reply) {
            (Call::Make, Reply::Number(_)) => self.makes = self.makes.wrapping_add(1),
            (Call::Link(..) | Call::Drop(_) | Call::Collect, Reply::Number(n)) => {
                self.given = self.given.wrapping_add(n);
            }
            _ => {}
        }
    }

    // Holds the makes against the records in use and the give-ups.
    pub(crate) fn weigh(&mut self, in_use: usize) {
        let balanced = self.makes == self.given.wrapping_add(in_use);
        self.checks = self.checks.wrapping_add(1);
        self.balanced = counted(self.balanced, balanced);
    }

    // Counts a round by what was seen in it.
    pub(crate) fn note_round(&mut self, survived: bool, emptied: bool) {
        self.survived = counted(self.survived, survived);
        self.emptied = counted(self.emptied, emptied);
    }
}

impl fmt::Display for Totals {
    fn fmt<W: fmt::Write>(&self, f: &mut fmt::Formatter<W>) -> fmt::Result {
        writeln!(f, "calls {}", self.calls)?;
        writeln!(f, "makes accepted {}", self.makes)?;
        writeln!(f, "give-ups reported {}", self.given)?;
        writeln!(f, "in use at the end {}", self.in_use)?;
        writeln!(
            f,
            "makes were records in use and give-ups {} times of {}",
            self.balanced, self.checks
        )?;
        writeln!(f, "rounds that left no record in use {}", self.emptied)?;
        writeln!(
            f,
            "rounds in which what was held from outside had its bytes {}",
            self.survived
        )?;
        write!(f, "digest of the replies {}", self.digest.0)
    }
}
