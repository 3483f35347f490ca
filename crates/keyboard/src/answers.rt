// An answer line, as bytes.
ghost use Rattle.std.specs.Prelude.{◌≤◌, length};

use arrayvec::ArrayString;

pub mod writing;

// The bytes of the line. 32 are enough: the longest answer has `ok`, a number of 20 digits and a line feed.
#[derive(Drop)]
pub struct Answer {
    line: ArrayString<32>,
    ghost within: { length line.bytes ≤ 32 },
}
