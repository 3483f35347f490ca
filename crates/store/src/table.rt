// The store.
ghost use Rattle.model.specs.Lawful.{Lawful};
ghost use Rattle.store.specs.Meaning.{meaning};

use crate::contents::Contents;
use kinds::kind::Kind;

// A store of N records of one kind, over tables that the host lends. It is lawful between calls: a store that is not cannot
// be made, and no call can leave one. That a refusal leaves it as it was (`untouched`) is a promise of each call, and no fact of one
// store.
// What it holds is public: a host reads heads, links and the list by the traits below the calls, and whoever alters it there has to
// show that the store is lawful again.
#[derive(Drop)]
pub struct Store<'a, K: Kind> {
    pub contents: Contents<'a, K>,
    ghost lawful: { ∥ Lawful K.Kind.shape (meaning K.Kind contents) ∥₁ },
}
