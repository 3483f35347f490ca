// What a call's result says, as a reply.
ghost use Rattle.std.specs.Prelude.{◌≡◌};
ghost use Rattle.model.specs.Replies.{numbered, loaded, granted};

use crate::calls::Reply;
use crate::refusals::Refusal;

impl From<Result<usize, Refusal>> for Reply {
    ghost from_gives = { λ outcome reply. reply ≡ numbered outcome };

    fn from(outcome: Result<usize, Refusal>) -> Reply {
        outcome.map_or_else(Reply::Refused, Reply::Number)
    }
}

impl From<Result<Option<usize>, Refusal>> for Reply {
    ghost from_gives = { λ outcome reply. reply ≡ loaded outcome };

    fn from(outcome: Result<Option<usize>, Refusal>) -> Reply {
        outcome.map_or_else(Reply::Refused, |target| {
            target.map_or(Reply::Nothing, Reply::Number)
        })
    }
}

impl From<Result<(), Refusal>> for Reply {
    ghost from_gives = { λ outcome reply. reply ≡ granted outcome };

    fn from(outcome: Result<(), Refusal>) -> Reply {
        outcome.map_or_else(Reply::Refused, |_| Reply::Done)
    }
}
