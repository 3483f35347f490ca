// A whole list of calls on a new store.
ghost use Rattle.std.specs.Prelude.{◌≡◌, length, drop};
ghost use Rattle.model.specs.History.{After, Promises, events};
ghost use Rattle.store.specs.Sizes.{size_over};
ghost use Rattle.store.specs.View.{view};

use crate::table::Store;
use crate::tables::Tables;
use kinds::kind::Kind;
use model::calls::{Call, Reply};

// Makes a store over the tables and performs the calls in order, as many as there is room for replies.
pub fn play<'a, K: Kind>(
    tables: Tables<'a, K>,
    calls: &[Call],
    replies: &mut [Reply],
) -> Store<'a, K>
    ensures answers { After K.Kind.shape (size_over tables.entry) (events calls.now replies.new) (view K.Kind result) }
    ensures history { Promises K.Kind.shape (size_over tables.entry) (events calls.now replies.new) (view K.Kind result) }
    ensures untouched { drop (length calls.now) replies.new ≡ drop (length calls.now) replies.old }
{
    let mut store = Store::new(tables);
    // by number: behind `zip` with `replies.iter_mut()`, in either order, a proof knows no more of the replies than how many, and
    // `enumerate` would still index the calls
    for i in 0..calls.len().min(replies.len()) {
        replies[i] = store.perform(calls[i]);
    }
    store
}
