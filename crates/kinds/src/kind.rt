// What the store asks of a kind of record.
ghost use Rattle.std.specs.Prelude.{◌≡◌, ◌≤◌, ◌&&◌, if◌then◌else◌, nat_le, nat_lt, slice_index};
ghost use Rattle.kinds.specs.Rows.{Row, Shape, Bounded, Fits, blank as blank_row, with_link, with_byte};

// The three numbers of a kind: its links, its bytes and its code.
#[derive(Clone, Copy, PartialEq, Eq, Debug)]
pub struct Numbers {
    pub links: usize,
    pub bytes: usize,
    pub code: u8,
}

// A kind of record. A record means a row: P links, each 0 (empty) or the number of a record up to 4,095, and W bytes.
// Code over every kind is proved from the row alone.
pub trait Kind: Copy {
    const P: usize;

    const W: usize;

    const CODE: u8;

    ghost shape: { Shape };

    ghost row: { Self → Row };

    // The constants, with the promise that they are the shape's: to code over every kind a constant alone says nothing. Each
    // kind writes the body: with one here each would write every constant twice more, as a ghost and in a law that ties it to
    // the shape.
    fn numbers() -> Numbers
        ensures links { result.links ≡ shape.links }
        ensures bytes { result.bytes ≡ shape.bytes }
        ensures code { result.code ≡ shape.code };

    // The record with every link empty and every byte 0.
    fn blank() -> Self
        ensures value { row result ≡ blank_row shape };

    // Link `i`; 0 beyond the links.
    fn link(&self, i: usize) -> u16
        ensures value { result ≡ slice_index (row self.now).links i };

    // Writes link `i`, and says yes, where there is such a link and the number is at most 4,095.
    fn set_link(&mut self, i: usize, t: u16) -> bool
        ensures value { result ≡ (nat_lt i shape.links && nat_le t 4095) }
        ensures after { row self.new ≡ (if result then with_link (row self.old) i t else row self.old) };

    // Byte `j`; 0 beyond the bytes.
    fn byte(&self, j: usize) -> u8
        ensures value { result ≡ slice_index (row self.now).bytes j };

    // Writes byte `j`, and says yes, where there is such a byte.
    fn set_byte(&mut self, j: usize, b: u8) -> bool
        ensures value { result ≡ nat_lt j shape.bytes }
        ensures after { row self.new ≡ (if result then with_byte (row self.old) j b else row self.old) };

    ghost bounded: { Bounded shape };

    ghost fits: { (x : Self) → Fits shape (row x) };
}
