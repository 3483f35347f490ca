// The words of a line, split off one at a time.
ghost use Rattle.std.specs.Prelude.{◌≡◌, ◌∷◌, None, MatchOption, slice_index};
ghost use Rattle.std.specs.Char.{is_ascii_digit};
ghost use Rattle.std.specs.Iterator.{item_count};
ghost use Rattle.std.specs.List.{position};
ghost use Rattle.keyboard.specs.Lines.{words, form};
ghost use Rattle.keyboard.specs.Names.{name_of};
ghost use Rattle.keyboard.specs.Splits.{is_space, left, first_number, others, text_of, is_digits, words_of, GivesWord};

use crate::forms::Form;
use crate::numbers::number;

// A word, as a part of its line. One that begins with a digit can only be a number, and any other only a command.
#[derive(Clone, Copy)]
pub(crate) enum Word<'a> {
    Command(&'a [u8]),
    Digits(&'a [u8]),
}

impl<'a> From<&'a [u8]> for Word<'a> {
    ghost from_gives = { λ bytes word.
        (text_of word ≡ bytes.now) × (is_digits word ≡ is_ascii_digit (slice_index bytes.now 0)) };

    // The word with these bytes; its first byte says which kind it is.
    fn from(bytes: &'a [u8]) -> Word<'a> {
        match bytes {
            [b'0'..=b'9', ..] => Word::Digits(bytes),
            _ => Word::Command(bytes),
        }
    }
}

// The words of a line that are still to come: those of `rest`, or none.
#[derive(Drop)]
pub(crate) struct Words<'a> {
    rest: Option<&'a [u8]>,
}

impl<'a> Iterator for Words<'a> {
    type Item = Word<'a>;

    // The word comes from the front, and is of the kind that its first byte says.
    ghost next_gives = { GivesWord };

    ghost remaining = { item_count left };

    // Splits the first word off. None where there is no word left.
    fn next(&mut self) -> Option<Word<'a>> {
        let line = self.rest?;
        let (first, rest) = split(line);
        self.rest = rest;
        Some(first.into())
    }
}

impl<'a> Words<'a> {
    // All words of a line: at least one, which may be empty.
    pub(crate) fn new(line: &'a [u8]) -> Words<'a>
        ensures value { left result ≡ words line.now }
    {
        Words { rest: Some(line) }
    }

    // The form whose command word comes next. None where the next word is the command word of no form.
    pub(crate) fn form(&mut self) -> Option<Form>
        ensures value { MatchOption result (form (left self.old) ≡ None) (λ f. left self.old ≡ name_of f ∷ left self.new) }
    {
        match self.next()? {
            Word::Command(name) => Form::named(name),
            Word::Digits(_) => None,
        }
    }

    // The number that the next word writes. None where there is no word left, or it is no numeral.
    pub(crate) fn number(&mut self) -> Option<usize>
        ensures value { result ≡ first_number (left self.old) }
        ensures after { left self.new ≡ others (left self.old) }
    {
        match self.next()? {
            Word::Digits(digits) => number(digits),
            Word::Command(_) => None,
        }
    }
}

// The first word of a line, and what follows the space after it; None where no space is there.
#[tactic(auto, using(crate::proofs::Splitting::at_space, crate::proofs::Splitting::at_end, std::proofs::lemmas::List::take_rest))]
fn split(line: &[u8]) -> (&[u8], Option<&[u8]>)
    ensures value { words line.now ≡ result.0.now ∷ words_of result.1 }
{
    match first_space(line) {
        Some(end) => (&line[..end], Some(&line[end + 1..])),
        None => (line, None),
    }
}

// Where the first space stands.
fn first_space(line: &[u8]) -> Option<usize>
    ensures value { result ≡ position is_space line.now }
{
    line.iter().position(|b| *b == b' ')
}
