// What a collection leaves of stores at the ends of what is allowed.
ghost use Rattle.std.specs.Prelude.{◌≤◌};

use kinds::kind::Kind;
use kinds::pair::Pair;
use model::calls::{Call, Reply};
use model::heads::Head;
use model::refusals::Refusal;
use reclaim::records::Records;
use steps::fields::Fields;
use store::plays::play;
use store::table::Store;
use store::tables::Tables;

// The replies to the calls on a new store of N pairs with W numbers in its work table. The tests of `worked` have the same: a
// public function for tests alone would be no plainer.
fn replies<const N: usize, const W: usize, const M: usize>(calls: &[Call; M]) -> [Reply; M]
    requires small { (N ≤ 4095) × (W ≤ 8190) }
{
    let mut replies = [Reply::Done; M];
    let tables = Tables {
        records: &mut [Pair::blank(); N],
        heads: &mut [Head::free(0); N],
        list: &mut [0u16; N],
        work: &mut [0u32; W],
    };
    play(tables, calls, &mut replies);
    replies
}

// A collection on no record, and a ring of one on a store of one.
#[test]
fn least_collections(rt: HostRuntime) {
    let calls = [
        Call::Make,
        Call::Link(1, 1, 1),
        Call::Drop(1),
        Call::Collect,
    ];
    assert_eq!(rt;
        replies::<0, 0, 4>(&calls),
        [
            Reply::Refused(Refusal::Full),
            Reply::Refused(Refusal::NotHeld),
            Reply::Refused(Refusal::NotHeld),
            Reply::Number(0),
        ]
    );
    assert_eq!(rt; replies::<1, 2, 4>(&calls), [1, 0, 0, 1].map(Reply::Number));
}

// A ring of 1 and 2 of which 2 stays held: it is not collected, and its links and bytes are as they were.
#[test]
fn survivors(rt: HostRuntime) {
    let calls = [
        Call::Make,
        Call::Make,
        Call::Link(1, 0, 2),
        Call::Link(2, 1, 1),
        Call::Byte(1, 0, 255),
        Call::Byte(2, 0, 9),
        Call::Drop(1),
        Call::Collect,
        Call::Tally,
        Call::Load(2, 0),
        Call::Load(2, 1),
        Call::Load(1, 0),
        Call::Load(1, 1),
        Call::Look(1, 0),
        Call::Look(2, 0),
    ];
    let replies = replies::<2, 4, 15>(&calls);
    // given up, in use; links 0 and 1 of record 2, then of record 1; the bytes of both
    assert_eq!(rt;
        [replies[7], replies[8]],
        [Reply::Number(0), Reply::Number(2)]
    );
    assert_eq!(rt;
        [replies[9], replies[10], replies[11], replies[12]],
        [
            Reply::Nothing,
            Reply::Number(1),
            Reply::Number(2),
            Reply::Nothing,
        ]
    );
    assert_eq!(rt;
        [replies[13], replies[14]],
        [Reply::Number(255), Reply::Number(9)]
    );
}

// How many references a record has, as its head counts them; None where the store has no such record.
fn counted<K: Kind>(store: &Store<'_, K>, r: usize) -> Option<u32> {
    if r == 0 || r > store.contents.size() {
        return None;
    }
    Some(store.contents.read_head(r).count)
}

// One more hold, by the call below the one of the store.
#[tactic(auto, using(store::proofs::Evidence::lawful_shown))]
fn hold_below<K: Kind>(store: &mut Store<'_, K>, r: usize) -> Result<usize, Refusal> {
    handing::hold(&mut store.contents, r)
}

// How many records are in use when the store is let go.
fn used_at_the_end<K: Kind>(store: Store<'_, K>) -> usize {
    store.tally()
}

// A host reads what a store holds, calls what lies below its calls, and hands the store over for good.
#[test]
fn handed_over(rt: HostRuntime) {
    let mut records = [Pair::blank(); 2];
    let mut heads = [Head::free(0); 2];
    let mut list = [0u16; 2];
    let mut work = [0u32; 4];
    let mut store = Store::new(Tables {
        records: &mut records,
        heads: &mut heads,
        list: &mut list,
        work: &mut work,
    });
    let replies = [Call::Make, Call::Make, Call::Link(1, 0, 2), Call::Drop(2)].map(
        |call| store.perform(call),
    );
    assert_eq!(rt; replies, [1, 2, 0, 0].map(Reply::Number));
    // 1 has its hold, 2 the link, and waits
    assert_eq!(rt;
        [counted(&store, 1), counted(&store, 2), counted(&store, 3)],
        [Some(1), Some(1), None]
    );
    assert_eq!(rt; store.contents.listed(), 1);
    assert_eq!(rt; hold_below(&mut store, 1), Ok(2));
    assert_eq!(rt; hold_below(&mut store, 2), Err(Refusal::NotHeld));
    assert_eq!(rt; counted(&store, 1), Some(2));
    assert_eq!(rt; used_at_the_end(store), 2);
}
