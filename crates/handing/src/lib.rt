// The calls that hand records out or only read: make, hold, load, look and tally. Each requires only that the store is
// lawful, answers what its definition says and leaves the store that it says; a refusal leaves everything as it was, every
// table to its end (`untouched`): that is a promise of each of them, and no fact of one value. That the store is lawful is a clause
// of each, since a bound has no invariant.
#![tactic(auto)]

ghost use Rattle.std.specs.Prelude.{◌≡◌, true, is_err};
ghost use Rattle.model.specs.Calls.{make as make_call, hold as hold_call, load as load_call, look as look_call};
ghost use Rattle.model.specs.State.{in_use};
ghost use Rattle.steps.specs.Keeping.{state, LawfulStore};
ghost use Rattle.steps.specs.Replies.{numbered as numbered_reply, loaded as loaded_reply, leaving};

use linking::load_link;
use model::refusals::Refusal;
use reclaim::records::Records;
use steps::fields::Fields;
use steps::freeing::take_front;
use steps::holding::{add_hold, is_held};
use walks::stacked::Stacked;

// A record from the front of the free chain, with one hold. Answers its number.
pub fn make<S: Fields>(store: &mut S) -> Result<usize, Refusal>
    requires lawful { LawfulStore S.Stacked S.Records.own store.old }
    ensures answer { leaving (numbered_reply result) (state S.Stacked store.new) ≡ make_call (state S.Stacked store.old) }
    ensures lawful { LawfulStore S.Stacked S.Records.own store.new }
    ensures untouched { is_err result ≡ true → store.new ≡ store.old }
{
    let r = store.front();
    Refusal::Full.unless(r != 0)?;
    take_front(store, r);
    Ok(r)
}

// One more hold on a held record, which is raised for it. Answers the holds.
pub fn hold<S: Fields>(store: &mut S, r: usize) -> Result<usize, Refusal>
    requires lawful { LawfulStore S.Stacked S.Records.own store.old }
    ensures answer { leaving (numbered_reply result) (state S.Stacked store.new) ≡ hold_call (state S.Stacked store.old) r }
    ensures lawful { LawfulStore S.Stacked S.Records.own store.new }
    ensures untouched { is_err result ≡ true → store.new ≡ store.old }
{
    Refusal::NotHeld.unless(is_held(store, r))?;
    let holds = usize::from(store.read_head(r).holds);
    add_hold(store, r, holds + 1)
}

// Reads a link of a held record. The record that it names gets a hold; an empty link takes none. The tests are those of `link`, a
// line each; what is done then is not.
pub fn load<S: Fields>(store: &mut S, r: usize, l: usize) -> Result<Option<usize>, Refusal>
    requires lawful { LawfulStore S.Stacked S.Records.own store.old }
    ensures answer { leaving (loaded_reply result) (state S.Stacked store.new) ≡ load_call S.Records.shape (state S.Stacked store.old) r l }
    ensures lawful { LawfulStore S.Stacked S.Records.own store.new }
    ensures untouched { is_err result ≡ true → store.new ≡ store.old }
{
    Refusal::NotHeld.unless(is_held(store, r))?;
    Refusal::NoSuchField.unless(l < S::fields().links)?;
    load_link(store, r, l)
}

// Byte `b` of a held record. It alters nothing.
pub fn look<S: Fields>(store: &S, r: usize, b: usize) -> Result<u8, Refusal>
    requires lawful { LawfulStore S.Stacked S.Records.own store.now }
    ensures answer { leaving (numbered_reply result) (state S.Stacked store.now) ≡ look_call S.Records.shape (state S.Stacked store.now) r b }
{
    Refusal::NotHeld.unless(is_held(store, r))?;
    Refusal::NoSuchField.unless(b < S::fields().bytes)?;
    Ok(store.read_byte(r, b))
}

// How many records are in use. It alters nothing.
pub fn tally<S: Fields>(store: &S) -> usize
    requires lawful { LawfulStore S.Stacked S.Records.own store.now }
    ensures value { result ≡ in_use (state S.Stacked store.now) }
{
    store.used()
}
