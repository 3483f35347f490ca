// Which tables a store can be made over, and the making of one.
ghost use Rattle.std.specs.Prelude.{◌≡◌, length};
ghost use Rattle.model.specs.Calls.{new as new_state};
ghost use Rattle.store.specs.Sizes.{size_over};
ghost use Rattle.store.specs.Tables.{table_test, refusal_number};
ghost use Rattle.store.specs.View.{view, LawfulStore};

use crate::contents::Contents;
use crate::fills::{blank_records, chain_heads};
use crate::table::Store;
use crate::tables::Tables;
use kinds::kind::Kind;
use model::heads::Head;
use model::refusals::Refusal;

// Whether a store can be made over the tables, and else why not. It takes them apart and shared, since a host may ask before it
// lends them.
pub fn check_tables<K: Kind>(
    records: &[K],
    heads: &[Head],
    list: &[u16],
    work: &[u32],
) -> Result<(), Refusal>
    ensures value { refusal_number result ≡ table_test (length records.now) (length heads.now) (length list.now) (length work.now) }
{
    let n = records.len();
    Refusal::NoRecords.unless(n != 0 && n <= 4095)?;
    Refusal::WrongLengths.unless(heads.len() == n && list.len() == n && work.len() >= 2 * n)
}

// The same by number, as the rules of the box say it: 0 where a store can be made over the tables, and else the number of
// the refusal.
pub fn test_tables<K: Kind>(records: &[K], heads: &[Head], list: &[u16], work: &[u32]) -> u8
    ensures value { result ≡ table_test (length records.now) (length heads.now) (length list.now) (length work.now) }
{
    match check_tables(records, heads, list, work) {
        Ok(()) => 0,
        Err(why) => why.number(),
    }
}

impl<'a, K: Kind> Store<'a, K> {
    // A store of free records over tables that fit; over others nothing is written, and the store has no record.
    pub fn new(tables: Tables<'a, K>) -> Store<'a, K>
        ensures store { view K.Kind result ≡ new_state K.Kind.shape (size_over tables.entry) }
        ensures lawful { LawfulStore K.Kind result }
        ensures untouched { size_over tables.entry ≡ 0 → (result.contents.tables.records.now ≡ tables.entry.records.now) × (result.contents.tables.heads.now ≡ tables.entry.heads.now) }
        ensures others { (result.contents.tables.list.now ≡ tables.entry.list.now) × (result.contents.tables.work.now ≡ tables.entry.work.now) }
    {
        let n = tables.size();
        // taken apart, since of a slice that is lent through a field a proof knows no element afterwards
        let Tables {
            records,
            heads,
            list,
            work,
        } = tables;
        blank_records(&mut records[..n]);
        chain_heads(&mut heads[..n]);
        Store {
            contents: Contents {
                tables: Tables {
                    records,
                    heads,
                    list,
                    work,
                },
                n,
                listed: 0,
                front: n.min(1),
                given: 0,
            },
        }
    }
}
