// What a store holds, as what release and collection need.
ghost use Rattle.std.specs.Prelude.{refl};
ghost use Rattle.store.specs.Sizing.{two_entries};

use crate::contents::Contents;
use kinds::kind::Kind;
use model::heads::Head;
use reclaim::records::Records;
use walks::stacked::Stacked;

impl<'a, K: Kind> Records for Contents<'a, K> {
    ghost shape = { K.Kind.shape };

    fn read_head(&self, r: usize) -> Head {
        self.head(r)
    }

    fn write_head(&mut self, r: usize, h: Head) {
        self.set_head(r, h);
    }

    fn clear(&mut self, r: usize) {
        self.set_record(r, K::blank());
    }

    fn give_up(&mut self, r: usize) {
        self.set_record(r, K::blank());
        // `as`: the front is known to fit, as a call of this asks
        let front = self.front;
        self.set_head(r, Head::free(front as u16));
        self.front = r;
        self.given += 1;
    }

    fn listed(&self) -> usize {
        self.listed
    }

    fn candidate(&self, i: usize) -> usize {
        // the slice by itself, as in `Contents::record`
        let list = &*self.tables.list;
        usize::from(list[i])
    }

    fn push(&mut self, r: usize) {
        // `as`: no number here passes 4,095
        self.tables.list[self.listed] = r as u16;
        self.listed += 1;
    }

    fn take_list(&mut self) {
        self.listed = 0;
    }

    ghost narrow = { (refl, K.bounded.few_links) };

    ghost room = { λ s. two_entries _ s };
}
