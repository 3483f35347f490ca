// Writing one byte of a record.
ghost use Rattle.std.specs.Prelude.{◌≡◌, true, is_err};
ghost use Rattle.model.specs.Calls.{byte};
ghost use Rattle.steps.specs.Replies.{granted, leaving};
ghost use Rattle.store.specs.View.{view, Same};

use crate::table::Store;
use altering::write_byte;
use kinds::kind::Kind;
use model::refusals::Refusal;

impl<'a, K: Kind> Store<'a, K> {
    // Sets byte `b` of a held record.
    #[tactic(auto, using(crate::proofs::Evidence::lawful_shown))]
    pub fn write_byte(&mut self, r: usize, b: usize, v: u8) -> Result<(), Refusal>
        ensures answer { leaving (granted result) (view K.Kind self.new) ≡ byte K.Kind.shape (view K.Kind self.old) r b v }
        ensures untouched { is_err result ≡ true → Same self.old self.new }
    {
        write_byte(&mut self.contents, r, b, v)
    }
}
