// Holds: which records have one, and one more.
ghost use Rattle.std.specs.Prelude.{◌≡◌, true, is_err};
ghost use Rattle.model.specs.Calls.{hold_more, is_held};
ghost use Rattle.model.specs.Lawful.{Used};
ghost use Rattle.steps.specs.Keeping.{state, LawfulStore};
ghost use Rattle.steps.specs.Replies.{numbered, leaving};

use crate::fields::Fields;
use model::refusals::Refusal;
use reclaim::records::Records;
use walks::stacked::Stacked;

// Whether `r` is a record of the store, and held.
pub fn is_held<S: Fields>(store: &S, r: usize) -> bool
    ensures value { result ≡ is_held (state S.Stacked store.now) r }
{
    if r == 0 || r > store.size() {
        return false;
    }
    store.read_head(r).holds > 0
}

// One more hold on a record in use, unless it has the most that are allowed. Answers what it is told to.
pub fn add_hold<S: Fields>(store: &mut S, r: usize, answer: usize) -> Result<usize, Refusal>
    requires lawful { LawfulStore S.Stacked S.Records.own store.old }
    requires used { Used (state S.Stacked store.old) r }
    ensures answer { leaving (numbered result) (state S.Stacked store.new) ≡ hold_more (state S.Stacked store.old) r answer }
    ensures lawful { LawfulStore S.Stacked S.Records.own store.new }
    ensures untouched { is_err result ≡ true → store.new ≡ store.old }
{
    let head = store.read_head(r);
    Refusal::TooManyHolds.unless(head.holds < 1000)?;
    store.write_head(r, head.raised().held_more());
    Ok(answer)
}
