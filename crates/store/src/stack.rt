// What a store holds, as what a walk needs: links, and the work table as its stack.
ghost use Rattle.store.specs.Meaning.{progress as progress_of};
ghost use Rattle.store.specs.Sizing.{few_rows};

use crate::contents::Contents;
use kinds::kind::Kind;
use walks::stacked::Stacked;

impl<'a, K: Kind> Stacked for Contents<'a, K> {
    ghost progress = { λ s. progress_of K.Kind s };

    ghost stack = { λ s. s.tables.work.now };

    ghost table = { λ s. s.tables.list.now };

    ghost width = { K.Kind.shape.links };

    fn links() -> usize {
        K::numbers().links
    }

    fn link(&self, r: usize, i: usize) -> usize {
        usize::from(self.record(r).link(i))
    }

    fn entry(&self, at: usize) -> usize {
        // `as`, since there is no `From<u32>` for a `usize`; the slice by itself, as in `Contents::record`
        let work = &*self.tables.work;
        work[at] as usize
    }

    fn put(&mut self, at: usize, n: usize) {
        // `as`: an entry is known to have 32 bits
        let tables = &mut self.tables;
        let work = &mut *tables.work;
        work[at] = n as u32;
    }

    ghost few = { λ s. few_rows _ s };
}
