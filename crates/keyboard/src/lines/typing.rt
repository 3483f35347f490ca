// What is done with a line that is being typed.
ghost use Rattle.std.specs.Prelude.{◌≡◌, ◌≤◌, [], ◌∷◌, ◌++◌, length, take, ◌==◌};
ghost use Rattle.keyboard.specs.Buffers.{text};

use super::Line;
use arrayvec::ArrayVec;

impl Line {
    // No byte typed yet.
    pub fn new() -> Line
        ensures value { text result ≡ [] }
    {
        Line {
            kept: ArrayVec::new(),
        }
    }

    // One byte more. Past 81 it is not kept: the line is too long already.
    #[tactic(auto, using(crate::proofs::Keeping::kept_more, crate::proofs::Keeping::kept_full))]
    pub fn push(&mut self, b: u8)
        ensures after { text self.new ≡ take 81 (text self.old ++ b ∷ []) }
    {
        if !self.kept.is_full() {
            self.kept.push(b);
        }
    }

    // Forgets what was typed, for the next line.
    pub fn clear(&mut self)
        ensures after { text self.new ≡ [] }
    {
        self.kept.clear();
    }

    // Whether no byte was typed.
    pub fn is_empty(&self) -> bool
        ensures value { result ≡ (length (text self.now) == 0) }
    {
        self.kept.is_empty()
    }

    // The bytes that are kept, as `command` takes them.
    pub fn bytes(&self) -> &[u8]
        ensures value { result.now ≡ text self.now }
        ensures fits { length result.now ≤ 81 }
    {
        self.kept.as_slice()
    }
}
