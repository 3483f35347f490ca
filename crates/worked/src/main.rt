// Runs small sessions on each kind of record, and prints every call with its reply.
#![tactic(auto)]

use kinds::card::Card;
use kinds::kind::Kind;
use kinds::pair::Pair;
use model::calls::{Call, Reply};
use model::heads::Head;
use model::transcripts::Transcript;
use std::io;
use store::plays::play;
use store::tables::Tables;

// Makes until no record of three is free, holds, marks and reads; then ties records to each other
// and to themselves, and lets go until some are given up and one stays spent.
fn calls() -> [Call; 29] {
    [
        Call::Tally,
        Call::Make,
        Call::Make,
        Call::Make,
        Call::Make,
        Call::Hold(2),
        Call::Hold(4),
        Call::Byte(3, 0, 7),
        Call::Look(3, 0),
        Call::Look(2, 0),
        Call::Byte(1, 99, 7),
        Call::Look(0, 99),
        Call::Tally,
        Call::Load(1, 0),
        Call::Link(1, 0, 2),
        Call::Link(2, 1, 2),
        Call::Link(2, 9, 4),
        Call::Link(2, 9, 0),
        Call::Drop(2),
        Call::Drop(2),
        Call::Drop(2),
        Call::Load(1, 0),
        Call::Link(1, 0, 0),
        Call::Link(2, 1, 0),
        Call::Drop(2),
        Call::Drop(1),
        Call::Tally,
        Call::Make,
        Call::Make,
    ]
}

// Plays the calls over three records of the kind and prints each with its reply. `rings` has a session and a main of its own:
// this program stays as it is.
fn session<K: Kind>(rt: &impl Print, records: &mut [K]) -> io::Result<()> {
    let calls = calls();
    let mut replies = [Reply::Done; 29];
    let mut heads = [Head::free(0); 3];
    let mut list = [0u16; 3];
    let mut work = [0u32; 6];
    let tables = Tables {
        records,
        heads: &mut heads,
        list: &mut list,
        work: &mut work,
    };
    let _store = play(tables, &calls, &mut replies);
    let transcript = Transcript {
        calls: &calls,
        replies: &replies,
    };
    print!(rt; "{transcript}")
}

fn main(rt: HostRuntime) -> io::Result<()> {
    println!(rt; "cards")?;
    session(&rt, &mut [Card::blank(); 3])?;
    println!(rt; "pairs")?;
    session(&rt, &mut [Pair::blank(); 3])
}

#[cfg(test)]
mod line_tests;
#[cfg(test)]
mod tests;
