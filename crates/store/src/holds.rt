// Make and hold.
ghost use Rattle.std.specs.Prelude.{◌≡◌, true, is_err};
ghost use Rattle.model.specs.Calls.{make, hold};
ghost use Rattle.steps.specs.Replies.{numbered, leaving};
ghost use Rattle.store.specs.View.{view, Same};

use crate::table::Store;
use kinds::kind::Kind;
use model::refusals::Refusal;

impl<'a, K: Kind> Store<'a, K> {
    // A record from the front of the free chain, with one hold.
    #[tactic(auto, using(crate::proofs::Evidence::lawful_shown))]
    pub fn make(&mut self) -> Result<usize, Refusal>
        ensures answer { leaving (numbered result) (view K.Kind self.new) ≡ make (view K.Kind self.old) }
        ensures untouched { is_err result ≡ true → Same self.old self.new }
    {
        handing::make(&mut self.contents)
    }

    // One more hold on a held record, which is raised for it.
    #[tactic(auto, using(crate::proofs::Evidence::lawful_shown))]
    pub fn hold(&mut self, r: usize) -> Result<usize, Refusal>
        ensures answer { leaving (numbered result) (view K.Kind self.new) ≡ hold (view K.Kind self.old) r }
        ensures untouched { is_err result ≡ true → Same self.old self.new }
    {
        handing::hold(&mut self.contents, r)
    }
}
