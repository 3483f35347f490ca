// The forms of a line, told apart by their command words.
ghost use Rattle.std.specs.Option.{MatchOption};
ghost use Rattle.keyboard.specs.Names.{Names, Nameless};

#[derive(Clone, Copy)]
pub(crate) enum Form {
    Make,
    Hold,
    Load,
    Link,
    Byte,
    Look,
    Drop,
    Tally,
}

impl Form {
    // The form that has this command word. An Option: there is no more to say of a word that has none, so `TryFrom` would only
    // add an error type.
    pub(crate) fn named(word: &[u8]) -> Option<Form>
        ensures value { MatchOption result (Nameless word.now) (λ f. Names word.now f) }
    {
        match word {
            b"make" => Some(Form::Make),
            b"hold" => Some(Form::Hold),
            b"load" => Some(Form::Load),
            b"link" => Some(Form::Link),
            b"byte" => Some(Form::Byte),
            b"look" => Some(Form::Look),
            b"drop" => Some(Form::Drop),
            b"tally" => Some(Form::Tally),
            _ => None,
        }
    }
}
