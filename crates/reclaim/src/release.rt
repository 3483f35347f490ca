// The steps of a release: what is lowered, and what is given back when a count comes to 0.
ghost use Rattle.std.specs.Prelude.{◌≤◌, ◌<◌, false, [], ◌≡◌, length};
ghost use Rattle.model.proofs.Unharmed.{release_keeps_few};
ghost use Rattle.model.proofs.Opening.{release_opens};
ghost use Rattle.reclaim.specs.Widths.{keeps_over};
ghost use Rattle.model.specs.Release.{suspect as suspect_of, released as released_of, releasing};
ghost use Rattle.model.specs.Releasing.{Releasing, FewGiven, counted_room, counted_open};
ghost use Rattle.model.specs.State.{head, Within};

use crate::records::{Records, alter_head};
use model::heads::{Colour, Head};
use walks::stacked::Stacked;
use walks::steps::Walk;

// A record that lost a reference and has others: it may hang in a dead ring.
fn suspect<S: Records>(store: &mut S, r: usize)
    requires named { Within (S.Stacked.progress store.old).store r }
    requires small { r ≤ 4095 }
    requires listing { (head (S.Stacked.progress store.old).store r).waiting ≡ false → length (S.Stacked.progress store.old).store.candidates < length (S.Stacked.progress store.old).store.rows }
    ensures after { S.Stacked.progress store.new ≡ suspect_of (S.Stacked.progress store.old) r }
    ensures kept { S.Stacked.stack store.new ≡ S.Stacked.stack store.old }
{
    let head = store.read_head(r);
    if head.colour.is_purple() {
        return;
    }
    let waits = head.waiting;
    store.write_head(r, head.suspected());
    if !waits {
        store.push(r);
    }
}

// A record whose links are all lowered: spent while it waits, and else given up to the front of the free chain.
fn finish<S: Records>(store: &mut S, r: usize)
    requires named { Within (S.Stacked.progress store.old).store r }
    requires few { ((S.Stacked.progress store.old).store.front ≤ 4095) × ((S.Stacked.progress store.old).given < 4095) }
    ensures after { S.Stacked.progress store.new ≡ released_of S.Records.shape (S.Stacked.progress store.old) r }
    ensures kept { S.Stacked.stack store.new ≡ S.Stacked.stack store.old }
{
    let head = store.read_head(r);
    if head.waiting {
        store.clear(r);
        store.write_head(r, head.painted(Colour::Black));
        return;
    }
    store.give_up(r);
}

pub struct Release;

impl<S: Records> Walk<S> for Release {
    ghost rule = { releasing S.Records.shape };

    ghost fits = { λ g Q. Releasing S.Records.shape g Q × FewGiven g };

    ghost room = { counted_room };

    ghost left = { counted_open };

    fn follow(store: &mut S, t: usize) {
        alter_head(store, t, Head::lessened);
    }

    fn visit(store: &mut S, t: usize, _base: usize) -> bool {
        if store.read_head(t).count == 0 {
            return true;
        }
        suspect(store, t);
        false
    }

    fn leave(store: &mut S, t: usize) {
        finish(store, t);
    }

    ghost keeps = { keeps_over S.Records.shape S.narrow (release_keeps_few S.Records.shape) };

    ghost opens = { release_opens S.Records.shape };
}
