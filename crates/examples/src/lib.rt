// The worked examples of the store as one theorem. The public function stands for it, and answers how many there are.
#![tactic(auto)]

ghost use Rattle.std.specs.Prelude.{◌≡◌, length};
ghost use Rattle.examples.specs.Worked.{examples, ExamplesRight};

// How many examples are worked: on cards and on pairs each gives its replies and leaves what it says.
#[tactic(auto, using(crate::proofs::Computed::examples_right))]
pub fn worked_examples() -> usize
    ensures right { ExamplesRight }
    ensures count { result ≡ length examples }
{
    9
}
