// The worked sessions as one theorem. The function stands for it, and answers how many there are.
ghost use Rattle.std.specs.Prelude.{◌≡◌, length};
ghost use Rattle.console.specs.Worked.{examples, SessionsRight};

// How many sessions are worked: at a new store of cards the whole output to each input is the one of its entry.
#[tactic(auto, using(crate::proofs::Sessions::sessions_right))]
pub fn worked_sessions() -> usize
    ensures right { SessionsRight }
    ensures count { result ≡ length examples }
{
    3
}
