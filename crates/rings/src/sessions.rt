// The calls of each session: first one that meets most calls, then the worked examples that the crate `examples` proves,
// some of them taken a little further.
use model::calls::Call;

// Makes until no record of three is free, holds, marks and reads; then ties records to each other
// and to themselves, and lets go until some are given up and one stays spent; then gets back that one
// and a ring. The first 29 calls are those of `worked`: that program stays as it is, and the two share no library of sessions.
pub(crate) fn most_calls() -> [Call; 36] {
    [
        Call::Tally,
        Call::Make,
        Call::Make,
        Call::Make,
        Call::Make,
        Call::Hold(2),
        Call::Hold(4),
        Call::Byte(3, 0, 7),
        Call::Look(3, 0),
        Call::Look(2, 0),
        Call::Byte(1, 99, 7),
        Call::Look(0, 99),
        Call::Tally,
        Call::Load(1, 0),
        Call::Link(1, 0, 2),
        Call::Link(2, 1, 2),
        Call::Link(2, 9, 4),
        Call::Link(2, 9, 0),
        Call::Drop(2),
        Call::Drop(2),
        Call::Drop(2),
        Call::Load(1, 0),
        Call::Link(1, 0, 0),
        Call::Link(2, 1, 0),
        Call::Drop(2),
        Call::Drop(1),
        Call::Tally,
        Call::Make,
        Call::Make,
        Call::Collect,
        Call::Make,
        Call::Link(1, 0, 2),
        Call::Link(2, 0, 1),
        Call::Drop(1),
        Call::Drop(2),
        Call::Collect,
    ]
}

// One make more than there are records.
pub(crate) fn makes() -> [Call; 4] {
    [Call::Make, Call::Make, Call::Make, Call::Make]
}

// A record that nothing names.
pub(crate) fn lone_record() -> [Call; 2] {
    [Call::Make, Call::Drop(1)]
}

// A record that names itself.
pub(crate) fn ring_of_one() -> [Call; 4] {
    [
        Call::Make,
        Call::Link(1, 0, 1),
        Call::Drop(1),
        Call::Collect,
    ]
}

// Two records that name each other, and what is free after their collection.
pub(crate) fn ring_of_two() -> [Call; 9] {
    [
        Call::Make,
        Call::Make,
        Call::Link(1, 1, 2),
        Call::Link(2, 1, 1),
        Call::Drop(1),
        Call::Drop(2),
        Call::Collect,
        Call::Make,
        Call::Drop(2),
    ]
}

// A ring of 1 and 2 that the held record 3 names; 1 and 2 are dropped in the order given.
pub(crate) fn held_ring(first: usize, second: usize) -> [Call; 11] {
    [
        Call::Make,
        Call::Make,
        Call::Make,
        Call::Link(1, 0, 2),
        Call::Link(2, 0, 1),
        Call::Link(3, 0, 1),
        Call::Drop(first),
        Call::Drop(second),
        Call::Collect,
        Call::Load(3, 0),
        Call::Load(1, 0),
    ]
}

// A waiting record whose count comes to 0.
pub(crate) fn spent_record() -> [Call; 8] {
    [
        Call::Make,
        Call::Make,
        Call::Link(1, 0, 2),
        Call::Drop(2),
        Call::Drop(1),
        Call::Tally,
        Call::Collect,
        Call::Tally,
    ]
}

// The same after a collection, so that it no longer waits.
pub(crate) fn released_chain() -> [Call; 6] {
    [
        Call::Make,
        Call::Make,
        Call::Link(1, 0, 2),
        Call::Drop(2),
        Call::Collect,
        Call::Drop(1),
    ]
}

// A link written twice with the same target; the collection finds both records alive.
pub(crate) fn same_link() -> [Call; 6] {
    [
        Call::Make,
        Call::Make,
        Call::Link(1, 0, 2),
        Call::Link(1, 0, 2),
        Call::Collect,
        Call::Tally,
    ]
}
