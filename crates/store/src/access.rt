// Reading and writing one head or one record, by what the tables mean. That `r` is a record of the store (`within`) is about the
// two of them, and no type of a number can say it.
ghost use Rattle.std.specs.Prelude.{◌≡◌, ◌<◌, ◌≤◌};
ghost use Rattle.model.specs.Release.{moved};
ghost use Rattle.model.specs.State.{head, row, with_head, with_row};
ghost use Rattle.model.specs.Headers.{header};
ghost use Rattle.store.specs.Meaning.{meaning, progress};

use crate::contents::Contents;
use kinds::kind::Kind;
use model::heads::Head;

impl<'a, K: Kind> Contents<'a, K> {
    // The head of record `r`.
    pub(crate) fn head(&self, r: usize) -> Head
        requires within { (1 ≤ r) × (r ≤ self.now.n) }
        ensures value { header result ≡ head (meaning K.Kind self.now) r }
    {
        self.tables.heads[r - 1]
    }

    #[tactic(auto, using(crate::proofs::Views::set_front))]
    pub(crate) fn set_head(&mut self, r: usize, h: Head)
        requires within { (1 ≤ r) × (r ≤ self.old.n) }
        ensures after { progress K.Kind self.new ≡ moved (progress K.Kind self.old) (with_head (meaning K.Kind self.old) r (header h)) }
        ensures others { self.new.tables.work.now ≡ self.old.tables.work.now }
        ensures aside { self.new.tables.list.now ≡ self.old.tables.list.now }
    {
        self.tables.heads[r - 1] = h;
    }

    // Record `r`.
    pub(crate) fn record(&self, r: usize) -> K
        requires within { (1 ≤ r) × (r ≤ self.now.n) }
        ensures value { K.Kind.row result ≡ row (meaning K.Kind self.now) r }
    {
        // the slice by itself, since of that a proof knows that the place of each record fits the memory
        let records = &*self.tables.records;
        records[r - 1]
    }

    #[tactic(auto, using(crate::proofs::Views::set_front))]
    pub(crate) fn set_record(&mut self, r: usize, x: K)
        requires within { (1 ≤ r) × (r ≤ self.old.n) }
        ensures after { progress K.Kind self.new ≡ moved (progress K.Kind self.old) (with_row (meaning K.Kind self.old) r (K.Kind.row x)) }
        ensures others { self.new.tables.work.now ≡ self.old.tables.work.now }
        ensures aside { self.new.tables.list.now ≡ self.old.tables.list.now }
    {
        let tables = &mut self.tables;
        let records = &mut *tables.records;
        records[r - 1] = x;
    }
}
