// The calls on a store, what they answer, and how both are printed.
ghost use Rattle.std.specs.Prelude.{Some};
ghost use Rattle.model.specs.Texts.{call_text, reply_text};

use crate::refusals::Refusal;
use std::fmt;

// One call with its arguments as they came: any numbers at all.
#[derive(Clone, Copy, PartialEq, Eq, Debug)]
pub enum Call {
    Make,
    // record
    Hold(usize),
    // record, link
    Load(usize, usize),
    // record, link, target
    Link(usize, usize, usize),
    // record, byte, value
    Byte(usize, usize, u8),
    // record, byte
    Look(usize, usize),
    // record
    Drop(usize),
    Collect,
    Tally,
}

// What the box says, which has a line for each of the four. It is no `Result`: within the calls a refusal is an `Err`, and a
// reply is made of that by `From` where the box speaks.
#[derive(Clone, Copy, PartialEq, Eq, Debug)]
pub enum Reply {
    Number(usize),
    // a load of an empty link
    Nothing,
    Done,
    Refused(Refusal),
}

impl fmt::Display for Call {
    ghost output = { λ c. Some (call_text c) };

    fn fmt<W: fmt::Write>(&self, f: &mut fmt::Formatter<W>) -> fmt::Result {
        match self {
            Call::Make => write!(f, "make"),
            Call::Hold(r) => write!(f, "hold {r}"),
            Call::Load(r, l) => write!(f, "load {r} {l}"),
            Call::Link(r, l, t) => write!(f, "link {r} {l} {t}"),
            Call::Byte(r, b, v) => write!(f, "byte {r} {b} {v}"),
            Call::Look(r, b) => write!(f, "look {r} {b}"),
            Call::Drop(r) => write!(f, "drop {r}"),
            Call::Collect => write!(f, "collect"),
            Call::Tally => write!(f, "tally"),
        }
    }
}

impl fmt::Display for Reply {
    ghost output = { λ r. Some (reply_text r) };

    fn fmt<W: fmt::Write>(&self, f: &mut fmt::Formatter<W>) -> fmt::Result {
        match self {
            Reply::Number(n) => write!(f, "{n}"),
            Reply::Nothing => write!(f, "none"),
            Reply::Done => write!(f, "done"),
            Reply::Refused(why) => write!(f, "refused {}", why.number()),
        }
    }
}
