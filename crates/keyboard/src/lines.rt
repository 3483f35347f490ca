// A line while it is typed. A line of 81 bytes is outside the forms whatever follows, so the first 81 suffice.
ghost use Rattle.std.specs.Prelude.{◌≤◌, length};

use arrayvec::ArrayVec;

mod typing;

// The first 81 bytes of the line that is being typed.
#[derive(Drop)]
pub struct Line {
    kept: ArrayVec<u8, 81>,
    ghost within: { length kept.items ≤ 81 },
}
