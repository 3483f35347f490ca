// Stores at the ends of what is allowed: no record, one, the most; the most holds.
ghost use Rattle.std.specs.Prelude.{◌≤◌};

use kinds::kind::Kind;
use kinds::pair::Pair;
use model::calls::{Call, Reply};
use model::heads::Head;
use model::refusals::Refusal;
use store::makes::test_tables;
use store::plays::play;
use store::tables::Tables;

// The replies to the calls on a new store of N pairs with W numbers in its work table. The tests of `edges` have the same: a
// public function for tests alone would be no plainer.
fn replies<const N: usize, const W: usize, const M: usize>(calls: &[Call; M]) -> [Reply; M]
    requires small { (N ≤ 4095) × (W ≤ 8190) }
{
    let mut replies = [Reply::Done; M];
    let tables = Tables {
        records: &mut [Pair::blank(); N],
        heads: &mut [Head::free(0); N],
        list: &mut [0u16; N],
        work: &mut [0u32; W],
    };
    play(tables, calls, &mut replies);
    replies
}

// Over tables that do not fit there is no record, and one record is soon taken.
#[test]
fn none_and_one(rt: HostRuntime) {
    let calls = [Call::Make, Call::Make, Call::Hold(1), Call::Tally];
    let none = replies::<1, 1, 4>(&calls);
    assert_eq!(rt;
        [none[0], none[2], none[3]],
        [
            Reply::Refused(Refusal::Full),
            Reply::Refused(Refusal::NotHeld),
            Reply::Number(0),
        ]
    );
    assert_eq!(rt;
        replies::<1, 2, 4>(&calls),
        [
            Reply::Number(1),
            Reply::Refused(Refusal::Full),
            Reply::Number(2),
            Reply::Number(1),
        ]
    );
}

// 4,095 records, and the make that finds none free.
#[test]
fn most_records(rt: HostRuntime) {
    let replies = replies::<4095, 8190, 4096>(&[Call::Make; 4096]);
    assert_eq!(rt;
        [replies[0], replies[4094], replies[4095]],
        [
            Reply::Number(1),
            Reply::Number(4095),
            Reply::Refused(Refusal::Full),
        ]
    );
}

// A thousand holds, and the hold that is one too many.
#[test]
fn most_holds(rt: HostRuntime) {
    let mut calls = [Call::Hold(1); 1001];
    calls[0] = Call::Make;
    let replies = replies::<1, 2, 1001>(&calls);
    assert_eq!(rt;
        [replies[1], replies[999], replies[1000]],
        [
            Reply::Number(2),
            Reply::Number(1000),
            Reply::Refused(Refusal::TooManyHolds),
        ]
    );
}

// The numbers by which the box says a refusal.
#[test]
fn refusals(rt: HostRuntime) {
    assert_eq!(rt;
        [
            Refusal::NotHeld.number(),
            Refusal::Full.number(),
            Refusal::TooManyHolds.number(),
            Refusal::BadLine.number(),
        ],
        [3, 5, 6, 14]
    );
}

// Which tables fit.
#[test]
fn tables(rt: HostRuntime) {
    let records = [Pair::blank(); 4096];
    let heads = [Head::free(0); 4096];
    let list = [0u16; 4096];
    let work = [0u32; 8192];
    assert_eq!(rt;
        [
            test_tables(
                &records[0..4095],
                &heads[0..4095],
                &list[0..4095],
                &work[0..8190],
            ),
            test_tables(&records, &heads, &list, &work),
            test_tables(&records[0..0], &heads[0..0], &list[0..0], &work),
        ],
        [0, 1, 1]
    );
    assert_eq!(rt;
        [
            test_tables(&records[0..9], &heads[0..8], &list[0..9], &work),
            test_tables(&records[0..9], &heads[0..9], &list[0..10], &work),
            test_tables(&records[0..9], &heads[0..9], &list[0..9], &work[0..17]),
        ],
        [2, 2, 2]
    );
}
