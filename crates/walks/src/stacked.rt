// What a walk asks of a store.
ghost use Rattle.std.specs.Prelude.{◌≡◌, ℕ, ◌^◌, ◌<◌, ◌≤◌, List, [], length, slice_index, slice_set};
ghost use Rattle.model.specs.State.{Within, row};
ghost use Rattle.model.specs.Walk.{Progress};

// A store that can be walked, with a table of its own in which a walk keeps its place.
pub trait Stacked {
    // What the store means.
    ghost progress: { Self → Progress };

    // The table.
    ghost stack: { Self → List ℕ };

    // The table of the candidate list, past the list's end too; a store that keeps none says nothing.
    ghost table: { Self → List ℕ } = { λ _. [] };

    // How many links a record has.
    ghost width: { ℕ };

    fn links() -> usize
        ensures value { result ≡ width }
        ensures bound { width ≤ 16 };

    // Link `i` of record `r`.
    fn link(&self, r: usize, i: usize) -> usize
        requires named { Within (progress self.now).store r }
        requires linked { i < width }
        ensures value { result ≡ slice_index (row (progress self.now).store r).links i };

    // Entry `at` of the table.
    fn entry(&self, at: usize) -> usize
        requires inside { at < length (stack self.now) }
        ensures value { result ≡ slice_index (stack self.now) at };

    // Writes entry `at` of the table, which is no longer than a number can say.
    fn put(&mut self, at: usize, n: usize)
        requires inside { at < length (stack self.old) }
        requires small { n < 2 ^ 32 }
        ensures after { stack self.new ≡ slice_set (stack self.old) at n }
        ensures short { length (stack self.new) < 2 ^ 64 }
        ensures same { progress self.new ≡ progress self.old }
        ensures aside { table self.new ≡ table self.old };

    // There are as many records as links can name, at most.
    ghost few: { (s : Self) → length (progress s).store.rows ≤ 4095 };
}
