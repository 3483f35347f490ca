// What the calls ask of a store beside what release and collection do.
ghost use Rattle.std.specs.Prelude.{◌≡◌, ◌<◌, ◌≤◌, length, slice_index};
ghost use Rattle.kinds.specs.Rows.{Bounded, with_link, with_byte};
ghost use Rattle.model.specs.Calls.{started};
ghost use Rattle.model.specs.Release.{moved};
ghost use Rattle.model.specs.State.{row, Within, in_use, with_row, with_front};

use kinds::kind::Numbers;
use reclaim::records::Records;
use walks::stacked::Stacked;

// A store whose links, bytes and free chain can be read and written. What is not named stays.
pub trait Fields: Records {
    // How many records there are.
    fn size(&self) -> usize
        ensures value { result ≡ length (Self.Stacked.progress self.now).store.rows };

    // How many links and bytes a record has.
    fn fields() -> Numbers
        ensures links { result.links ≡ Self.Records.shape.links }
        ensures bytes { result.bytes ≡ Self.Records.shape.bytes };

    // Writes a link that the record has.
    fn write_link(&mut self, r: usize, l: usize, t: usize)
        requires named { Within (Self.Stacked.progress self.old).store r }
        requires field { l < Self.Records.shape.links }
        requires small { t ≤ 4095 }
        ensures after { Self.Stacked.progress self.new ≡ moved (Self.Stacked.progress self.old) (with_row (Self.Stacked.progress self.old).store r (with_link (row (Self.Stacked.progress self.old).store r) l t)) }
        ensures kept { Self.Stacked.stack self.new ≡ Self.Stacked.stack self.old };

    // Byte `b` of record `r`.
    fn read_byte(&self, r: usize, b: usize) -> u8
        requires named { Within (Self.Stacked.progress self.now).store r }
        ensures value { result ≡ slice_index (row (Self.Stacked.progress self.now).store r).bytes b };

    // Writes a byte that the record has.
    fn put_byte(&mut self, r: usize, b: usize, v: u8)
        requires named { Within (Self.Stacked.progress self.old).store r }
        requires field { b < Self.Records.shape.bytes }
        ensures after { Self.Stacked.progress self.new ≡ moved (Self.Stacked.progress self.old) (with_row (Self.Stacked.progress self.old).store r (with_byte (row (Self.Stacked.progress self.old).store r) b v)) }
        ensures kept { Self.Stacked.stack self.new ≡ Self.Stacked.stack self.old };

    // The first free record; 0 where there is none, as the chain itself says it: an Option would be made here and unmade at the
    // next link of the chain.
    fn front(&self) -> usize
        ensures value { result ≡ (Self.Stacked.progress self.now).store.front };

    fn set_front(&mut self, r: usize)
        ensures after { Self.Stacked.progress self.new ≡ moved (Self.Stacked.progress self.old) (with_front (Self.Stacked.progress self.old).store r) }
        ensures kept { Self.Stacked.stack self.new ≡ Self.Stacked.stack self.old };

    // How many records are in use.
    fn used(&self) -> usize
        ensures value { result ≡ in_use (Self.Stacked.progress self.now).store };

    // How many records the call under way has given up, and to count them from 0 on.
    fn given(&self) -> usize
        ensures value { result ≡ (Self.Stacked.progress self.now).given };

    fn start(&mut self)
        ensures after { Self.Stacked.progress self.new ≡ started (Self.Stacked.progress self.old).store }
        ensures kept { Self.Stacked.stack self.new ≡ Self.Stacked.stack self.old };

    // The three numbers of the shape are within their bounds.
    ghost bounded: { Bounded Self.Records.shape };
}
