// A host program with a store of its own, which counts what it does.
use crate::dice::Dice;
use crate::totals::Totals;
use kinds::kind::Kind;
use model::calls::{Call, Reply};
use store::table::Store;

// The number that names no record: a link to it is an empty one, and a call on it is refused.
pub(crate) const NO_RECORD: usize = 0;

#[derive(Drop)]
pub(crate) struct Host<'a, K: Kind> {
    store: Store<'a, K>,
    pub(crate) dice: Dice,
    pub(crate) totals: Totals,
}

// The byte of record `r` that has its mark.
fn marked_byte<K: Kind>(r: usize) -> usize {
    r % K::numbers().bytes.max(1)
}

// What record `r` is marked with in a round: a low byte.
fn mark(r: usize, round: usize) -> u8 {
    let [low, ..] = r.wrapping_mul(31).wrapping_add(round).to_le_bytes();
    low
}

impl<'a, K: Kind> Host<'a, K> {
    pub(crate) fn new(store: Store<'a, K>, seed: u64) -> Host<'a, K> {
        Host {
            store,
            dice: Dice::new(seed),
            totals: Totals::default(),
        }
    }

    // Makes a call and counts it.
    pub(crate) fn call(&mut self, call: Call) -> Reply {
        let reply = self.store.perform(call);
        self.totals.note(call, reply);
        reply
    }

    // The number that a call answers, where it answers one.
    pub(crate) fn number(&mut self, call: Call) -> Option<usize> {
        match self.call(call) {
            Reply::Number(n) => Some(n),
            _ => None,
        }
    }

    // Makes a record and marks one of its bytes.
    pub(crate) fn make_marked(&mut self, round: usize) -> usize {
        let r = self.number(Call::Make).unwrap_or(NO_RECORD);
        self.call(Call::Byte(r, marked_byte::<K>(r), mark(r, round)));
        r
    }

    // Whether a record has its mark.
    pub(crate) fn is_marked(&mut self, r: usize, round: usize) -> bool {
        let found = self.number(Call::Look(r, marked_byte::<K>(r)));
        found == Some(usize::from(mark(r, round)))
    }

    // Collects, and answers the records in use once makes are held against them.
    pub(crate) fn collect(&mut self) -> Option<usize> {
        self.call(Call::Collect);
        let in_use = self.number(Call::Tally)?;
        self.totals.weigh(in_use);
        Some(in_use)
    }

    // The totals, with what the store has in use at the end.
    pub(crate) fn finish(&mut self) -> Totals {
        self.totals.in_use = self.store.tally();
        self.totals
    }
}
