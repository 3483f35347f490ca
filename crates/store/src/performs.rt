// One call in, one reply out.
ghost use Rattle.std.specs.Prelude.{◌≡◌, true};
ghost use Rattle.model.specs.Calls.{answered};
ghost use Rattle.model.specs.History.{GoesOn};
ghost use Rattle.steps.specs.Replies.{leaving, is_refusal};
ghost use Rattle.store.specs.View.{view, LawfulStore, Same};

use crate::table::Store;
use kinds::kind::Kind;
use model::calls::{Call, Reply};
use performing::perform;

impl<'a, K: Kind> Store<'a, K> {
    // Performs one call. Whatever calls led to this store, the promises over all of them hold after it.
    #[tactic(auto, using(crate::proofs::Evidence::lawful_shown))]
    pub fn perform(&mut self, call: Call) -> Reply
        ensures answer { leaving result (view K.Kind self.new) ≡ answered K.Kind.shape (view K.Kind self.old) call }
        ensures lawful { LawfulStore K.Kind self.new }
        ensures untouched { is_refusal result ≡ true → Same self.old self.new }
        ensures history { GoesOn K.Kind.shape (view K.Kind self.old) call result (view K.Kind self.new) }
    {
        perform(&mut self.contents, call)
    }
}
