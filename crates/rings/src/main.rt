// Runs sessions with rings, and those of the worked examples, on each kind of record, and prints every call with its reply.
#![tactic(auto)]

use kinds::card::Card;
use kinds::kind::Kind;
use kinds::pair::Pair;
use model::calls::{Call, Reply};
use model::heads::Head;
use model::transcripts::Transcript;
use std::io;
use store::plays::play;
use store::tables::Tables;

mod sessions;

// Plays the calls on a new store of the records, and prints each with its reply. `worked` has a session and a main of its own: that
// program stays as it is.
fn session<K: Kind>(
    rt: &impl Print,
    title: &str,
    records: &mut [K],
    calls: &[Call],
) -> io::Result<()> {
    let n = records.len().min(200);
    let mut heads = [Head::free(0); 200];
    let mut list = [0u16; 200];
    let mut work = [0u32; 400];
    let mut replies = [Reply::Done; 36];
    let tables = Tables {
        records,
        heads: &mut heads[..n],
        list: &mut list[..n],
        work: &mut work,
    };
    let _store = play(tables, calls, &mut replies);
    println!(rt; "{title}")?;
    let transcript = Transcript {
        calls,
        replies: &replies,
    };
    print!(rt; "{transcript}")
}

// Every session, on the records of one kind: its title, how many records it has, and its calls.
fn all_sessions<K: Kind>(rt: &impl Print, records: &mut [K; 200]) -> io::Result<()> {
    let sessions: [(&str, usize, &[Call]); 10] = [
        ("most calls", 3, &sessions::most_calls()),
        ("one make too many", 3, &sessions::makes()),
        ("a lone record", 3, &sessions::lone_record()),
        ("a ring of one", 3, &sessions::ring_of_one()),
        ("a ring of two", 200, &sessions::ring_of_two()),
        ("a held ring", 3, &sessions::held_ring(1, 2)),
        ("a held ring, 2 first", 3, &sessions::held_ring(2, 1)),
        ("a spent record", 2, &sessions::spent_record()),
        ("a chain released", 2, &sessions::released_chain()),
        ("the same link twice", 2, &sessions::same_link()),
    ];
    for (title, n, calls) in sessions {
        session(rt, title, &mut records[..n], calls)?;
    }
    Ok(())
}

fn main(rt: HostRuntime) -> io::Result<()> {
    println!(rt; "on cards")?;
    all_sessions(&rt, &mut [Card::blank(); 200])?;
    println!(rt; "on pairs")?;
    all_sessions(&rt, &mut [Pair::blank(); 200])
}
