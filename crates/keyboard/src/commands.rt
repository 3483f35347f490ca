// From a line to the call that it means.
ghost use Rattle.std.specs.Prelude.{◌≡◌, ◌∷◌};
ghost use Rattle.keyboard.specs.Lines.{alone as value_alone, byte_call as call_of_byte, form, meaning};
ghost use Rattle.keyboard.specs.Splits.{left, numbers as numbers_of};
ghost use Rattle.keyboard.specs.Names.{name_of};

use crate::forms::Form;
use crate::words::Words;
use model::calls::Call;

// The value, where no word is left. None where a word is too many.
fn alone<T: Copy>(value: T, mut words: Words<'_>) -> Option<T>
    ensures value { result ≡ value_alone value (left words.entry) }
{
    words.next().is_none().then_some(value)
}

// N numbers and no word more. A loop, since of a closure that takes from `words`, as `array::try_from_fn` wants, nothing would be
// known.
fn numbers<const N: usize>(mut words: Words<'_>) -> Option<[usize; N]>
    ensures value { result ≡ numbers_of N (left words.entry) }
{
    let mut found = [0; N];
    for number in found.iter_mut() {
        *number = words.number()?;
    }
    alone(found, words)
}

// A call that writes a byte, whose value is at most 255.
fn byte_call(record: usize, byte: usize, value: usize) -> Option<Call>
    ensures value { result ≡ call_of_byte («record», byte, value) }
{
    let value = u8::try_from(value).ok()?;
    Some(Call::Byte(record, byte, value))
}

// The call of a form, from the words after its command word.
fn call(kind: Form, words: Words<'_>) -> Option<Call>
    ensures value { result ≡ form (name_of kind ∷ left words.entry) }
{
    match kind {
        Form::Make => alone(Call::Make, words),
        Form::Hold => {
            let [record] = numbers::<1>(words)?;
            Some(Call::Hold(record))
        }
        Form::Load => {
            let [record, link] = numbers::<2>(words)?;
            Some(Call::Load(record, link))
        }
        Form::Link => {
            let [record, link, target] = numbers::<3>(words)?;
            Some(Call::Link(record, link, target))
        }
        Form::Byte => {
            let [record, byte, value] = numbers::<3>(words)?;
            byte_call(record, byte, value)
        }
        Form::Look => {
            let [record, byte] = numbers::<2>(words)?;
            Some(Call::Look(record, byte))
        }
        Form::Drop => {
            let [record] = numbers::<1>(words)?;
            Some(Call::Drop(record))
        }
        Form::Tally => alone(Call::Tally, words),
    }
}

// The call that a line means. None where the line is outside the forms, or has more than 80 bytes.
pub fn command(line: &[u8]) -> Option<Call>
    ensures value { result ≡ meaning line.now }
{
    if line.len() > 80 {
        return None;
    }
    let mut words = Words::new(line);
    let kind = words.form()?;
    call(kind, words)
}
