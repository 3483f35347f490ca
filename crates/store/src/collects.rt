// Collect.
ghost use Rattle.std.specs.Prelude.{◌≡◌};
ghost use Rattle.model.specs.Calls.{collect as collect_call, started};
ghost use Rattle.model.specs.Collected.{AfterCollection};
ghost use Rattle.model.specs.declared.calls.Reply.TheVariants.{Number};
ghost use Rattle.steps.specs.Replies.{leaving};
ghost use Rattle.store.specs.Meaning.{progress};
ghost use Rattle.store.specs.View.{view};

use crate::table::Store;
use kinds::kind::Kind;

impl<'a, K: Kind> Store<'a, K> {
    // Gives up every record that cannot be come to from a held one. Answers the give-ups.
    #[tactic(auto, using(crate::proofs::Evidence::lawful_shown))]
    pub fn collect(&mut self) -> usize
        ensures answer { leaving (Number result) (view K.Kind self.new) ≡ collect_call K.Kind.shape (view K.Kind self.old) }
        ensures law { AfterCollection K.Kind.shape (started (view K.Kind self.old)) (progress K.Kind self.new.contents) }
    {
        altering::collect(&mut self.contents)
    }
}
