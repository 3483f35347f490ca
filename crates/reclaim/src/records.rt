// What release and collection ask of a store.
ghost use Rattle.std.specs.Prelude.{◌*◌, ◌≤◌, ◌<◌, [], ◌≡◌, length, get_or, set, take, not, if◌then◌else◌};
ghost use Rattle.kinds.specs.Rows.{Shape, blank as blank_row};
ghost use Rattle.model.specs.Collection.{kept_listed, list_taken};
ghost use Rattle.model.specs.Release.{moved, turn, given_up};
ghost use Rattle.model.specs.State.{head, Within, with_row};
ghost use Rattle.model.specs.Headers.{header, painted};
ghost use Rattle.reclaim.specs.Widths.{Narrow};

use model::heads::{Colour, Head};
use walks::stacked::Stacked;

// A store whose records can be altered one part at a time. What is not named stays: the stack, and the table of the
// candidate list (clauses `kept` and `aside`, which each function promises for itself). That `r` names a record of the store
// (`named`) is about the two of them, and no type of a number can say it.
pub trait Records: Stacked {
    // The shape of its records.
    ghost shape: { Shape };

    fn read_head(&self, r: usize) -> Head
        requires named { Within (Self.Stacked.progress self.now).store r }
        ensures value { header result ≡ head (Self.Stacked.progress self.now).store r };

    fn write_head(&mut self, r: usize, h: Head)
        requires named { Within (Self.Stacked.progress self.old).store r }
        ensures after { Self.Stacked.progress self.new ≡ turn (Self.Stacked.progress self.old) r (header h) }
        ensures kept { Self.Stacked.stack self.new ≡ Self.Stacked.stack self.old }
        ensures aside { Self.Stacked.table self.new ≡ Self.Stacked.table self.old };

    // Blanks the links and bytes of record `r`.
    fn clear(&mut self, r: usize)
        requires named { Within (Self.Stacked.progress self.old).store r }
        ensures after { Self.Stacked.progress self.new ≡ moved (Self.Stacked.progress self.old) (with_row (Self.Stacked.progress self.old).store r (blank_row shape)) }
        ensures kept { Self.Stacked.stack self.new ≡ Self.Stacked.stack self.old }
        ensures aside { Self.Stacked.table self.new ≡ Self.Stacked.table self.old };

    // Gives record `r` up: blank, and free at the front of the chain.
    fn give_up(&mut self, r: usize)
        requires named { Within (Self.Stacked.progress self.old).store r }
        requires few { ((Self.Stacked.progress self.old).store.front ≤ 4095) × ((Self.Stacked.progress self.old).given < 4095) }
        ensures after { Self.Stacked.progress self.new ≡ given_up shape (Self.Stacked.progress self.old) r }
        ensures kept { Self.Stacked.stack self.new ≡ Self.Stacked.stack self.old }
        ensures aside { Self.Stacked.table self.new ≡ Self.Stacked.table self.old };

    // How many records are on the candidate list.
    fn listed(&self) -> usize
        ensures value { result ≡ length (Self.Stacked.progress self.now).store.candidates }
        ensures table { (Self.Stacked.progress self.now).store.candidates ≡ take result (Self.Stacked.table self.now) }
        ensures room { result ≤ length (Self.Stacked.progress self.now).store.rows };

    // Entry `i` of the table of the candidate list.
    fn candidate(&self, i: usize) -> usize
        requires inside { i < length (Self.Stacked.table self.now) }
        ensures value { result ≡ get_or (Self.Stacked.table self.now) i 0 };

    // One more record at the end of the candidate list.
    fn push(&mut self, r: usize)
        requires small { r ≤ 4095 }
        requires room { length (Self.Stacked.progress self.old).store.candidates < length (Self.Stacked.progress self.old).store.rows }
        ensures after { Self.Stacked.progress self.new ≡ kept_listed (Self.Stacked.progress self.old) r }
        ensures kept { Self.Stacked.stack self.new ≡ Self.Stacked.stack self.old }
        ensures table { Self.Stacked.table self.new ≡ set (Self.Stacked.table self.old) (length (Self.Stacked.progress self.old).store.candidates) r };

    // Empties the candidate list; its table stays as it is.
    fn take_list(&mut self)
        ensures after { Self.Stacked.progress self.new ≡ list_taken (Self.Stacked.progress self.old) }
        ensures kept { Self.Stacked.stack self.new ≡ Self.Stacked.stack self.old }
        ensures aside { Self.Stacked.table self.new ≡ Self.Stacked.table self.old };

    // A walk goes over all links of the shape, and there are at most 16.
    ghost narrow: { Narrow shape Self.Stacked.width };

    // The table has two entries for each record, which a scan needs; a walk asks for as many as it uses.
    ghost room: { (s : Self) → 2 * length (Self.Stacked.progress s).store.rows ≤ length (Self.Stacked.stack s) };
}

// Reads the head of record `r`, alters it, and writes it back.
pub fn alter_head<S: Records, F: FnOnce(Head) -> Head>(store: &mut S, r: usize, change: F)
    requires named { Within (S.Stacked.progress store.old).store r }
    requires allowed { (h : _) → header h ≡ head (S.Stacked.progress store.old).store r → F.pre change h }
    ensures after { (old : _) × (new : _) × (header old ≡ head (S.Stacked.progress store.old).store r) × F.post change old new × (S.Stacked.progress store.new ≡ turn (S.Stacked.progress store.old) r (header new)) }
    ensures kept { S.Stacked.stack store.new ≡ S.Stacked.stack store.old }
    ensures aside { S.Stacked.table store.new ≡ S.Stacked.table store.old }
{
    let head = store.read_head(r);
    store.write_head(r, change(head));
}

// Paints record `r`, and says yes, unless it has that colour.
pub fn repaint<S: Records>(store: &mut S, r: usize, colour: Colour) -> bool
    requires named { Within (S.Stacked.progress store.old).store r }
    ensures answer { result ≡ not (⟦<Colour as PartialEq>⟧.eq (head (S.Stacked.progress store.old).store r).colour colour) }
    ensures after { S.Stacked.progress store.new ≡ (if result then turn (S.Stacked.progress store.old) r (painted colour (head (S.Stacked.progress store.old).store r)) else S.Stacked.progress store.old) }
    ensures kept { S.Stacked.stack store.new ≡ S.Stacked.stack store.old }
    ensures aside { S.Stacked.table store.new ≡ S.Stacked.table store.old }
{
    let head = store.read_head(r);
    if head.colour == colour {
        return false;
    }
    store.write_head(r, head.painted(colour));
    true
}
