// Records taken into use, and lowered.
ghost use Rattle.std.specs.Prelude.{◌≡◌, ◌*◌, ◌<◌, ◌≤◌, [], ◌∷◌, length};
ghost use Rattle.model.specs.Calls.{make as make_call, raised_at};
ghost use Rattle.model.specs.Release.{moved, lower as lower_of};
ghost use Rattle.model.specs.Releasing.{Releasing, FewGiven};
ghost use Rattle.model.specs.State.{head};
ghost use Rattle.model.specs.Walk.Task.{follow as to_follow};
ghost use Rattle.model.specs.declared.calls.Reply.TheVariants.{Number};
ghost use Rattle.steps.specs.Keeping.{state, LawfulStore};
ghost use Rattle.steps.specs.Replies.{leaving};

use crate::fields::Fields;
use model::heads::Head;
use reclaim::records::{Records, alter_head};
use reclaim::release::Release;
use walks::run::walk;
use walks::stacked::Stacked;
use walks::steps::Walk;

// Takes record `r`, the front of the free chain, into use.
pub fn take_front<S: Fields>(store: &mut S, r: usize)
    requires lawful { LawfulStore S.Stacked S.Records.own store.old }
    requires front { (1 ≤ r) × (r ≡ (state S.Stacked store.old).front) }
    ensures after { leaving (Number r) (state S.Stacked store.new) ≡ make_call (state S.Stacked store.old) }
    ensures lawful { LawfulStore S.Stacked S.Records.own store.new }
{
    let next = store.read_head(r).next;
    store.write_head(r, Head::made());
    store.set_front(usize::from(next));
}

// Lowers record `t`, to which one reference is still counted that is gone; 0 names none, as in the link that it was read from. How
// few were given up by then (`few`) is about this moment of a call.
pub fn lower<S: Fields>(store: &mut S, t: usize)
    requires owing { Releasing S.Records.shape (S.Stacked.progress store.old) (to_follow t ∷ []) }
    requires few { FewGiven (S.Stacked.progress store.old) }
    ensures after { S.Stacked.progress store.new ≡ lower_of S.Records.shape (S.Stacked.progress store.old) t }
    ensures wide { length (S.Stacked.stack store.new) ≡ length (S.Stacked.stack store.old) }
{
    if t == 0 {
        return;
    }
    Release::follow(store, t);
    walk::<S, Release>(store, t, 0);
}

// Raises record `t`; 0 names none, as in the link that is written.
pub fn raise<S: Fields>(store: &mut S, t: usize)
    requires within { t ≤ length (S.Stacked.progress store.old).store.rows }
    requires few { (head (S.Stacked.progress store.old).store t).count < 4294967295 }
    ensures after { S.Stacked.progress store.new ≡ moved (S.Stacked.progress store.old) (raised_at (S.Stacked.progress store.old).store t) }
    ensures kept { S.Stacked.stack store.new ≡ S.Stacked.stack store.old }
{
    if t == 0 {
        return;
    }
    alter_head(store, t, Head::raised);
}
