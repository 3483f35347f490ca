// What load, link, drop and a byte write do once their tests are passed. That a record is held and that a field is one of the
// kind's (`held`, `field`) is about two values, and no type of a number can say it. That the store is lawful is a clause of each, since
// a bound has no invariant.
#![tactic(auto)]

ghost use Rattle.std.specs.Prelude.{◌≡◌, ◌<◌, true, ◌&&◌, ◌||◌, is_err, ◌==◌};
ghost use Rattle.model.specs.Calls.{load as load_call, link as link_call, drop as drop_call, byte as byte_call, is_held};
ghost use Rattle.model.specs.declared.calls.Reply.TheVariants.{Number, Done};
ghost use Rattle.steps.specs.Keeping.{state, LawfulStore};
ghost use Rattle.steps.specs.Replies.{loaded, leaving};

use model::heads::Head;
use model::refusals::Refusal;
use reclaim::records::{Records, alter_head};
use steps::fields::Fields;
use steps::freeing::{lower, raise};
use steps::holding::{add_hold, is_held};
use walks::stacked::Stacked;

// Whether `r` is held, and `t` is held or 0.
pub fn are_held<S: Fields>(store: &S, r: usize, t: usize) -> bool
    ensures value { result ≡ (is_held (state S.Stacked store.now) r && (t == 0 || is_held (state S.Stacked store.now) t)) }
{
    is_held(store, r) && (t == 0 || is_held(store, t))
}

// Reads a link that the record has. The record that it names gets a hold; an empty link takes none.
pub fn load_link<S: Fields>(store: &mut S, r: usize, l: usize) -> Result<Option<usize>, Refusal>
    requires lawful { LawfulStore S.Stacked S.Records.own store.old }
    requires held { is_held (state S.Stacked store.old) r ≡ true }
    requires field { l < S.Records.shape.links }
    ensures answer { leaving (loaded result) (state S.Stacked store.new) ≡ load_call S.Records.shape (state S.Stacked store.old) r l }
    ensures lawful { LawfulStore S.Stacked S.Records.own store.new }
    ensures untouched { is_err result ≡ true → store.new ≡ store.old }
{
    let t = store.link(r, l);
    if t == 0 {
        return Ok(None);
    }
    Ok(Some(add_hold(store, t, t)?))
}

// The new target is raised, the link is written, and then the old target is lowered.
pub fn relink<S: Fields>(store: &mut S, r: usize, l: usize, t: usize) -> usize
    requires lawful { LawfulStore S.Stacked S.Records.own store.old }
    requires held { (is_held (state S.Stacked store.old) r && (t == 0 || is_held (state S.Stacked store.old) t)) ≡ true }
    requires field { l < S.Records.shape.links }
    ensures answer { leaving (Number result) (state S.Stacked store.new) ≡ link_call S.Records.shape (state S.Stacked store.old) r l t }
    ensures lawful { LawfulStore S.Stacked S.Records.own store.new }
{
    store.start();
    let old = store.link(r, l);
    raise(store, t);
    store.write_link(r, l, t);
    lower(store, old);
    store.given()
}

// Takes the hold first and then lowers, so that no head has more holds than its count.
pub fn let_go<S: Fields>(store: &mut S, r: usize) -> usize
    requires lawful { LawfulStore S.Stacked S.Records.own store.old }
    requires held { is_held (state S.Stacked store.old) r ≡ true }
    ensures answer { leaving (Number result) (state S.Stacked store.new) ≡ drop_call S.Records.shape (state S.Stacked store.old) r }
    ensures lawful { LawfulStore S.Stacked S.Records.own store.new }
{
    store.start();
    alter_head(store, r, Head::held_less);
    lower(store, r);
    store.given()
}

// Writes a byte that the record has.
pub fn set_byte<S: Fields>(store: &mut S, r: usize, b: usize, v: u8)
    requires lawful { LawfulStore S.Stacked S.Records.own store.old }
    requires held { is_held (state S.Stacked store.old) r ≡ true }
    requires field { b < S.Records.shape.bytes }
    ensures after { leaving Done (state S.Stacked store.new) ≡ byte_call S.Records.shape (state S.Stacked store.old) r b v }
    ensures lawful { LawfulStore S.Stacked S.Records.own store.new }
{
    store.put_byte(r, b, v);
}
