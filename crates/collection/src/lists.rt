// Mark, scan and gather, each through the candidate list in order, and the collection. Each goes by the number of the entry:
// the list stands in the store that its records alter, so no iterator can hold it meanwhile. The three loops share their proof
// (`InTurn`) and differ in what is done at a record; one loop that is passed that, as a function or by a trait, would have to be
// told as well what holds between two records, and would be longer than they are. That the stack keeps its length (`wide`) is a
// promise of each function; how few were given up by then (`few`) is about this moment of a call.
ghost use Rattle.std.specs.Prelude.{◌≡◌, ◌+◌, ◌*◌, ◌≤◌, length, drop};
ghost use Rattle.collection.specs.Serving.{Marks, Gathers};
ghost use Rattle.model.specs.Collected.{AfterMark, AfterScan, AfterCollection};
ghost use Rattle.model.specs.Collection.{struck, mark_one as marked_one, gather_one as gathered_one, marked, scanned, gathered, collected};
ghost use Rattle.model.specs.Lawful.{Lawful};
ghost use Rattle.model.specs.Releasing.{FewGiven};
ghost use Rattle.model.specs.Walk.{Progress};

use model::heads::Head;
use reclaim::records::{Records, alter_head};
use tracing::gather::Gather;
use tracing::mark::Mark;
use tracing::scan::Scan;
use walks::run::walk;
use walks::stacked::Stacked;
use walks::steps::Walk;

// A listed record that is not purple leaves the list; a spent one is given up.
fn strike<S: Records>(store: &mut S, r: usize)
    requires serving { Marks S.Records.shape (S.Stacked.progress store.old) r }
    ensures meaning { S.Stacked.progress store.new ≡ struck S.Records.shape (S.Stacked.progress store.old) r }
    ensures kept { S.Stacked.stack store.new ≡ S.Stacked.stack store.old }
    ensures aside { S.Stacked.table store.new ≡ S.Stacked.table store.old }
{
    let head = store.read_head(r);
    if head.colour.is_black() && head.count == 0 {
        store.give_up(r);
    } else {
        store.write_head(r, head.unlisted());
    }
}

// A purple record of the list is walked and stays on it; any other is struck.
fn mark_one<S: Records>(store: &mut S, r: usize)
    requires serving { Marks S.Records.shape (S.Stacked.progress store.old) r }
    ensures meaning { S.Stacked.progress store.new ≡ marked_one S.Records.shape (S.Stacked.progress store.old) r }
    ensures wide { length (S.Stacked.stack store.new) ≡ length (S.Stacked.stack store.old) }
    ensures aside { drop (length (S.Stacked.progress store.old).store.candidates + 1) (S.Stacked.table store.new) ≡ drop (length (S.Stacked.progress store.old).store.candidates + 1) (S.Stacked.table store.old) }
    ensures short { length (S.Stacked.progress store.new).store.candidates ≤ length (S.Stacked.progress store.old).store.candidates + 1 }
{
    if store.read_head(r).colour.is_purple() {
        walk::<S, Mark>(store, r, 0);
        store.push(r);
    } else {
        strike(store, r);
    }
}

// Mark: what hangs on a candidate turns gray, and the counts keep what comes from outside the gray.
pub fn mark<S: Records>(store: &mut S)
    requires lawful { Lawful S.Records.shape (S.Stacked.progress store.old).store }
    requires few { FewGiven (S.Stacked.progress store.old) }
    ensures meaning { S.Stacked.progress store.new ≡ marked S.Records.shape (S.Stacked.progress store.old) }
    ensures law { AfterMark S.Records.shape (S.Stacked.progress store.old) (S.Stacked.progress store.new) }
    ensures wide { length (S.Stacked.stack store.new) ≡ length (S.Stacked.stack store.old) }
{
    let n = store.listed();
    store.take_list();
    for i in 0..n {
        let r = store.candidate(i);
        mark_one(store, r);
    }
}

// Scan: what is unreachable turns white, and the rest of the gray black again.
pub fn scan<S: Records>(store: &mut S)
    requires marked { (g : Progress) × (Lawful S.Records.shape g.store × AfterMark S.Records.shape g (S.Stacked.progress store.old)) }
    ensures meaning { S.Stacked.progress store.new ≡ scanned (S.Stacked.progress store.old) }
    ensures law { (g : Progress) → Lawful S.Records.shape g.store → AfterMark S.Records.shape g (S.Stacked.progress store.old) → AfterScan S.Records.shape g (S.Stacked.progress store.new) }
    ensures wide { length (S.Stacked.stack store.new) ≡ length (S.Stacked.stack store.old) }
{
    let listed = store.listed();
    for i in 0..listed {
        let root = store.candidate(i);
        walk::<S, Scan>(store, root, 0);
    }
}

// A record is taken off the list and walked.
fn gather_one<S: Records>(store: &mut S, r: usize)
    requires serving { Gathers S.Records.shape (S.Stacked.progress store.old) r }
    ensures meaning { S.Stacked.progress store.new ≡ gathered_one S.Records.shape (S.Stacked.progress store.old) r }
    ensures wide { length (S.Stacked.stack store.new) ≡ length (S.Stacked.stack store.old) }
    ensures aside { S.Stacked.table store.new ≡ S.Stacked.table store.old }
{
    alter_head(store, r, Head::unlisted);
    walk::<S, Gather>(store, r, 0);
}

// Gather: what is white is given up, and the list is empty.
pub fn gather<S: Records>(store: &mut S)
    requires scanned { (g : Progress) × (Lawful S.Records.shape g.store × (FewGiven g × AfterScan S.Records.shape g (S.Stacked.progress store.old))) }
    ensures meaning { S.Stacked.progress store.new ≡ gathered S.Records.shape (S.Stacked.progress store.old) }
    ensures law { (g : Progress) → Lawful S.Records.shape g.store → FewGiven g → AfterScan S.Records.shape g (S.Stacked.progress store.old) → AfterCollection S.Records.shape g (S.Stacked.progress store.new) }
    ensures wide { length (S.Stacked.stack store.new) ≡ length (S.Stacked.stack store.old) }
{
    let left = store.listed();
    store.take_list();
    for i in 0..left {
        let next = store.candidate(i);
        gather_one(store, next);
    }
}

// A whole collection: exactly the reachable records stay in use.
pub fn collect<S: Records>(store: &mut S)
    requires lawful { Lawful S.Records.shape (S.Stacked.progress store.old).store }
    requires few { FewGiven (S.Stacked.progress store.old) }
    ensures meaning { S.Stacked.progress store.new ≡ collected S.Records.shape (S.Stacked.progress store.old) }
    ensures law { AfterCollection S.Records.shape (S.Stacked.progress store.old) (S.Stacked.progress store.new) }
    ensures wide { length (S.Stacked.stack store.new) ≡ length (S.Stacked.stack store.old) }
{
    mark(store);
    scan(store);
    gather(store);
}
