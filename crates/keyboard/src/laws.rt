// Theorems on lines and answers. Each public function stands for one, and answers the number in it.
ghost use Rattle.std.specs.Prelude.{◌≡◌, ◌+◌, length};
ghost use Rattle.keyboard.specs.Laws.{DecimalsBelow, Suffices};
ghost use Rattle.keyboard.specs.Worked.{lines, answers, LinesRight, AnswersRight};

// The numerals are exactly the decimals of the numbers below this one.
pub fn number_limit() -> usize
    ensures law { DecimalsBelow result }
{
    100000
}

// It suffices to keep so many bytes of a line.
#[tactic(auto, using(crate::proofs::Keeping::suffices))]
pub fn kept_bytes() -> usize
    ensures law { Suffices result }
{
    81
}

// How many examples are worked: each line means what its entry says, and each reply has the line of its entry.
#[tactic(auto, using(crate::proofs::Telling::answers_right))]
pub fn worked_examples() -> usize
    ensures lines { LinesRight }
    ensures answers { AnswersRight }
    ensures count { result ≡ length lines + length answers }
{
    33
}
