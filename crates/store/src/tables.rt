// The tables that the host lends.
ghost use Rattle.std.specs.Prelude.{◌≡◌};
ghost use Rattle.store.specs.Sizes.{size_over, test_over};
ghost use Rattle.store.specs.Tables.{refusal_number};

use crate::makes::check_tables;
use kinds::kind::Kind;
use model::heads::Head;
use model::refusals::Refusal;
use std::marker::Model;

// The four tables of a store. There is no heap: the host lends each as it is.
#[derive(Drop)]
pub struct Tables<'a, K> {
    pub records: &'a mut [K],
    pub heads: &'a mut [Head],
    // the candidate list
    pub list: &'a mut [u16],
    // the stack of a walk
    pub work: &'a mut [u32],
}

// A clause sees all four, and nothing else: it is here because a value that holds a struct with slices, and no such view of
// it, could not be let go by a function that takes it.
impl<'a, K> Model for Tables<'a, K> {
    ghost use Rattle.store.specs.Lent.{Lent};

    ghost Value = { Lent K };

    ghost view = { λ t. record { records = t.records; heads = t.heads; list = t.list; work = t.work } };
}

impl<'a, K: Kind> Tables<'a, K> {
    // Whether a store can be made over the tables, and else why not.
    pub fn test(&self) -> Result<(), Refusal>
        ensures value { refusal_number result ≡ test_over self.now }
    {
        check_tables(self.records, self.heads, self.list, self.work)
    }

    // How many records a store over the tables has; none where they do not fit.
    pub(crate) fn size(&self) -> usize
        ensures value { result ≡ size_over self.now }
    {
        match self.test() {
            Ok(()) => self.records.len(),
            Err(_) => 0,
        }
    }
}
