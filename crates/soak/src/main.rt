// Fills and empties a store of cards and one of pairs thousands of times, with rings of changing size and shape, and prints
// totals that must add up.
#![tactic(auto)]

mod dice;
mod host;
mod rounds;
mod totals;

use crate::host::Host;
use kinds::card::Card;
use kinds::kind::Kind;
use kinds::pair::Pair;
use model::heads::Head;
use std::io;
use store::table::Store;
use store::tables::Tables;

const RECORDS: usize = 240;

const ROUNDS: usize = 2000;

// Plays all rounds on a store of one kind.
fn soak<K: Kind>(rt: &impl Print, records: &mut [K], seed: u64) -> io::Result<()> {
    let mut heads = [Head::free(0); RECORDS];
    let mut list = [0u16; RECORDS];
    let mut work = [0u32; 2 * RECORDS];
    let mut places = [0usize; RECORDS];
    let store = Store::new(Tables {
        records,
        heads: &mut heads,
        list: &mut list,
        work: &mut work,
    });
    let mut host = Host::new(store, seed);
    for round in 0..ROUNDS {
        host.play_round(&mut places, round);
    }
    println!(rt; "rounds {ROUNDS}")?;
    println!(rt; "{}", host.finish())
}

fn main(rt: HostRuntime) -> io::Result<()> {
    println!(rt; "cards")?;
    soak(&rt, &mut [Card::blank(); RECORDS], 1)?;
    println!(rt; "pairs")?;
    soak(&rt, &mut [Pair::blank(); RECORDS], 2)
}
