// The calls that alter records or give them back: link, byte write, drop and collect. Each requires only that the store is
// lawful, answers what its definition says and leaves the store that it says; a refusal leaves everything as it was, every
// table to its end. That the store is lawful is a clause of each, since a bound has no invariant.
#![tactic(auto)]

ghost use Rattle.std.specs.Prelude.{◌≡◌, true, is_err};
ghost use Rattle.model.specs.Calls.{link as link_call, byte as byte_call, drop as drop_call, collect as collect_call, started};
ghost use Rattle.model.specs.Collected.{AfterCollection};
ghost use Rattle.model.specs.declared.calls.Reply.TheVariants.{Number};
ghost use Rattle.steps.specs.Keeping.{state, LawfulStore};
ghost use Rattle.steps.specs.Replies.{numbered as numbered_reply, granted as granted_reply, leaving};

use collection::lists::collect as collect_rings;
use linking::{are_held, let_go, relink, set_byte};
use model::refusals::Refusal;
use reclaim::records::Records;
use steps::fields::Fields;
use steps::holding::is_held;
use walks::stacked::Stacked;

// Sets link `l` of a held record to a held record, or to 0. Answers the give-ups. The tests are those of `load`, a line each; what
// is done then is not.
pub fn link<S: Fields>(store: &mut S, r: usize, l: usize, t: usize) -> Result<usize, Refusal>
    requires lawful { LawfulStore S.Stacked S.Records.own store.old }
    ensures answer { leaving (numbered_reply result) (state S.Stacked store.new) ≡ link_call S.Records.shape (state S.Stacked store.old) r l t }
    ensures lawful { LawfulStore S.Stacked S.Records.own store.new }
    ensures untouched { is_err result ≡ true → store.new ≡ store.old }
{
    Refusal::NotHeld.unless(are_held(store, r, t))?;
    Refusal::NoSuchField.unless(l < S::fields().links)?;
    Ok(relink(store, r, l, t))
}

// Sets byte `b` of a held record.
pub fn write_byte<S: Fields>(store: &mut S, r: usize, b: usize, v: u8) -> Result<(), Refusal>
    requires lawful { LawfulStore S.Stacked S.Records.own store.old }
    ensures answer { leaving (granted_reply result) (state S.Stacked store.new) ≡ byte_call S.Records.shape (state S.Stacked store.old) r b v }
    ensures lawful { LawfulStore S.Stacked S.Records.own store.new }
    ensures untouched { is_err result ≡ true → store.new ≡ store.old }
{
    Refusal::NotHeld.unless(is_held(store, r))?;
    Refusal::NoSuchField.unless(b < S::fields().bytes)?;
    set_byte(store, r, b, v);
    Ok(())
}

// Takes one hold from a held record, and lowers it. Answers the give-ups.
pub fn drop_hold<S: Fields>(store: &mut S, r: usize) -> Result<usize, Refusal>
    requires lawful { LawfulStore S.Stacked S.Records.own store.old }
    ensures answer { leaving (numbered_reply result) (state S.Stacked store.new) ≡ drop_call S.Records.shape (state S.Stacked store.old) r }
    ensures lawful { LawfulStore S.Stacked S.Records.own store.new }
    ensures untouched { is_err result ≡ true → store.new ≡ store.old }
{
    Refusal::NotHeld.unless(is_held(store, r))?;
    Ok(let_go(store, r))
}

// Gives up every record that cannot be come to from a held one. Answers the give-ups.
pub fn collect<S: Fields>(store: &mut S) -> usize
    requires lawful { LawfulStore S.Stacked S.Records.own store.old }
    ensures answer { leaving (Number result) (state S.Stacked store.new) ≡ collect_call S.Records.shape (state S.Stacked store.old) }
    ensures lawful { LawfulStore S.Stacked S.Records.own store.new }
    ensures law { AfterCollection S.Records.shape (started (state S.Stacked store.old)) (S.Stacked.progress store.new) }
{
    store.start();
    collect_rings(store);
    store.given()
}
