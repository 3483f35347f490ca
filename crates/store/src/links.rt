// Load, link and drop.
ghost use Rattle.std.specs.Prelude.{◌≡◌, true, is_err};
ghost use Rattle.model.specs.Calls.{load as load_call, link as link_call, drop as drop_call};
ghost use Rattle.steps.specs.Replies.{numbered, loaded, leaving};
ghost use Rattle.store.specs.View.{view, Same};

use crate::table::Store;
use altering::{drop_hold, link};
use handing::load;
use kinds::kind::Kind;
use model::refusals::Refusal;

impl<'a, K: Kind> Store<'a, K> {
    // Reads a link of a held record. The record that it names gets a hold; an empty link takes none.
    #[tactic(auto, using(crate::proofs::Evidence::lawful_shown))]
    pub fn load(&mut self, r: usize, l: usize) -> Result<Option<usize>, Refusal>
        ensures answer { leaving (loaded result) (view K.Kind self.new) ≡ load_call K.Kind.shape (view K.Kind self.old) r l }
        ensures untouched { is_err result ≡ true → Same self.old self.new }
    {
        load(&mut self.contents, r, l)
    }

    // Sets link `l` of a held record to a held record, or to 0. Answers the give-ups.
    #[tactic(auto, using(crate::proofs::Evidence::lawful_shown))]
    pub fn link(&mut self, r: usize, l: usize, t: usize) -> Result<usize, Refusal>
        ensures answer { leaving (numbered result) (view K.Kind self.new) ≡ link_call K.Kind.shape (view K.Kind self.old) r l t }
        ensures untouched { is_err result ≡ true → Same self.old self.new }
    {
        link(&mut self.contents, r, l, t)
    }

    // Takes one hold from a held record, and lowers it. Answers the give-ups.
    #[tactic(auto, using(crate::proofs::Evidence::lawful_shown))]
    pub fn drop_hold(&mut self, r: usize) -> Result<usize, Refusal>
        ensures answer { leaving (numbered result) (view K.Kind self.new) ≡ drop_call K.Kind.shape (view K.Kind self.old) r }
        ensures untouched { is_err result ≡ true → Same self.old self.new }
    {
        drop_hold(&mut self.contents, r)
    }
}
