// Numbers as they are typed.
ghost use Rattle.std.specs.Prelude.{◌≡◌, ◌≤◌, true, length};
ghost use Rattle.keyboard.specs.Lines.{plain, numeral};

// 1 to 5 bytes, the first of them no 0 unless it is the only one.
fn is_plain(word: &[u8]) -> bool
    ensures value { result ≡ plain word.now }
    ensures short { result ≡ true → length word.now ≤ 5 }
{
    matches!(word.len(), 1..=5) && (word.len() == 1 || word[0] != b'0')
}

// The number that a word writes. None where the word is no numeral. Digit by digit, and not by the library's `parse`: that takes a
// text, which has to be tested first, and takes a sign and looks for a number too large. It took more than twice as long, in what is a
// third of the time of a line with numbers.
#[tactic(auto, using(crate::proofs::Reading::read_more, crate::proofs::Reading::refused, crate::proofs::Reading::accepted))]
pub(crate) fn number(word: &[u8]) -> Option<usize>
    ensures value { result ≡ numeral word.now }
{
    if !is_plain(word) {
        return None;
    }
    let mut value = 0;
    for digit in word {
        if !digit.is_ascii_digit() {
            return None;
        }
        value = 10 * value + usize::from(*digit - b'0');
    }
    Some(value)
}
