// How an answer line is written.
ghost use Rattle.std.specs.Prelude.{◌≡◌, ◌≤◌, ◌++◌, length, decimal};
ghost use Rattle.keyboard.specs.Answers.{answer_line, line_feed};
ghost use Rattle.keyboard.specs.Buffers.{line_of};
ghost use Rattle.keyboard.specs.Laws.{Tells};

use super::Answer;
use arrayvec::ArrayString;
use itoa::Buffer;
use model::calls::Reply;

impl Answer {
    // The bytes of the line.
    pub fn bytes(&self) -> &[u8]
        ensures value { result.now ≡ line_of self.now }
        ensures fits { length result.now ≤ 32 }
    {
        self.line.as_str().as_bytes()
    }
}

// The line of a text and a number. It is put together, and not by `write!`, of which no clause says that it succeeds where
// there is room.
fn numbered(words: &str, n: usize) -> Answer
    requires { length words.now ≤ 8 }
    ensures value { line_of result ≡ words.now ++ (decimal n ++ line_feed) }
{
    let mut number = Buffer::new();
    let mut line = ArrayString::new();
    line.push_str(words);
    line.push_str(number.format(n));
    line.push('\n');
    Answer { line }
}

// A line of a text, with its line feed. It is pushed, and not written by `write!`, for the reason that `numbered` gives.
fn text(words: &str) -> Answer
    requires { length words.now ≤ 8 }
    ensures value { line_of result ≡ words.now }
{
    let mut line = ArrayString::new();
    line.push_str(words);
    Answer { line }
}

// The answer line of a reply.
#[tactic(auto, using(crate::proofs::Telling::tells))]
pub fn answer(reply: Reply) -> Answer
    ensures value { line_of result ≡ answer_line reply }
    ensures tells { Tells reply }
{
    match reply {
        Reply::Number(n) => numbered("ok ", n),
        Reply::Nothing => text("ok none\n"),
        Reply::Done => text("ok\n"),
        Reply::Refused(why) => numbered("refused ", usize::from(why.number())),
    }
}
