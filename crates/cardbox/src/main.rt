// The card box: keeps 200 score cards, and answers each line that is typed.
#![tactic(auto)]

use console::desk::Desk;
use kinds::card::Card;
use kinds::kind::Kind;
use model::heads::Head;
use std::io;
use std::io::{BufWriter, Read, Write};
use store::table::Store;
use store::tables::Tables;

// Answers what was read, byte by byte.
fn serve<K: Kind>(
    desk: &mut Desk,
    store: &mut Store<'_, K>,
    typed: &[u8],
    output: &mut impl Write,
) -> io::Result<()> {
    for &byte in typed {
        if let Some(answer) = desk.key(store, byte) {
            output.write_all(answer.bytes())?;
        }
    }
    output.flush()
}

// Reads pieces of the input until it ends, and answers each line as it comes. The count only bounds the reading.
fn run<K: Kind>(
    store: &mut Store<'_, K>,
    input: &mut impl Read,
    output: &mut impl Write,
) -> io::Result<()> {
    let mut desk = Desk::new();
    let mut piece = [0u8; 4096];
    for _ in 0..u64::MAX {
        let n = input.read(&mut piece)?;
        if n == 0 {
            break;
        }
        serve(&mut desk, store, &piece[0..n], output)?;
    }
    if let Some(answer) = desk.end(store) {
        output.write_all(answer.bytes())?;
    }
    output.flush()
}

fn main(rt: HostRuntime) -> io::Result<()> {
    let mut cards = [Card::blank(); 200];
    let mut heads = [Head::free(0); 200];
    let mut list = [0u16; 200];
    let mut work = [0u32; 400];
    let mut store = Store::new(Tables {
        records: &mut cards,
        heads: &mut heads,
        list: &mut list,
        work: &mut work,
    });
    run(
        &mut store,
        &mut rt.stdin(),
        &mut BufWriter::new(rt.alloc(), rt.stdout())?,
    )
}
