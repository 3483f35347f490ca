// One call in, one reply out, over any store. That it is lawful is a clause, since a bound has no invariant.
#![tactic(auto)]

ghost use Rattle.std.specs.Prelude.{◌≡◌, true};
ghost use Rattle.model.specs.Calls.{answered};
ghost use Rattle.model.specs.History.{GoesOn};
ghost use Rattle.steps.specs.Keeping.{state, LawfulStore};
ghost use Rattle.steps.specs.Replies.{leaving, is_refusal};

use altering::{collect, drop_hold, link, write_byte};
use handing::{hold, load, look, make, tally};
use model::calls::{Call, Reply};
use reclaim::records::Records;
use steps::fields::Fields;
use walks::stacked::Stacked;

// Makes the call, and says what it answers as a reply.
fn reply<S: Fields>(store: &mut S, call: Call) -> Reply
    requires lawful { LawfulStore S.Stacked S.Records.own store.old }
    ensures answer { leaving result (state S.Stacked store.new) ≡ answered S.Records.shape (state S.Stacked store.old) call }
    ensures lawful { LawfulStore S.Stacked S.Records.own store.new }
    ensures untouched { is_refusal result ≡ true → store.new ≡ store.old }
{
    match call {
        Call::Make => make(store).into(),
        Call::Hold(r) => hold(store, r).into(),
        Call::Load(r, l) => load(store, r, l).into(),
        Call::Link(r, l, t) => link(store, r, l, t).into(),
        Call::Byte(r, b, v) => write_byte(store, r, b, v).into(),
        Call::Look(r, b) => look(store, r, b).map(usize::from).into(),
        Call::Drop(r) => drop_hold(store, r).into(),
        Call::Collect => Reply::Number(collect(store)),
        Call::Tally => Reply::Number(tally(store)),
    }
}

// Performs one call. Whatever calls led to this store, the promises over all of them hold after it.
pub fn perform<S: Fields>(store: &mut S, call: Call) -> Reply
    requires lawful { LawfulStore S.Stacked S.Records.own store.old }
    ensures answer { leaving result (state S.Stacked store.new) ≡ answered S.Records.shape (state S.Stacked store.old) call }
    ensures lawful { LawfulStore S.Stacked S.Records.own store.new }
    ensures untouched { is_refusal result ≡ true → store.new ≡ store.old }
    ensures history { GoesOn S.Records.shape (state S.Stacked store.old) call result (state S.Stacked store.new) }
{
    reply(store, call)
}
