// Reading one byte of a record, and the tally.
ghost use Rattle.std.specs.Prelude.{◌≡◌};
ghost use Rattle.model.specs.Calls.{look};
ghost use Rattle.model.specs.State.{in_use};
ghost use Rattle.steps.specs.Replies.{numbered, leaving};
ghost use Rattle.store.specs.View.{view};

use crate::table::Store;
use kinds::kind::Kind;
use model::refusals::Refusal;

impl<'a, K: Kind> Store<'a, K> {
    // Byte `b` of a held record. It alters nothing.
    #[tactic(auto, using(crate::proofs::Evidence::lawful_shown))]
    pub fn look(&self, r: usize, b: usize) -> Result<u8, Refusal>
        ensures answer { leaving (numbered result) (view K.Kind self.now) ≡ look K.Kind.shape (view K.Kind self.now) r b }
    {
        handing::look(&self.contents, r, b)
    }

    // How many records are in use. It alters nothing.
    #[tactic(auto, using(crate::proofs::Evidence::lawful_shown))]
    pub fn tally(&self) -> usize
        ensures value { result ≡ in_use (view K.Kind self.now) }
    {
        handing::tally(&self.contents)
    }
}
