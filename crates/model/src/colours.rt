// Colours told apart. Each question is a function, since its promise (`is_gray`) is the word by which the rules of the walks ask
// it; its body is one comparison.
ghost use Rattle.std.specs.Prelude.{◌≡◌};
ghost use Rattle.model.specs.Headers.{is_black as says_black, is_gray as says_gray, is_white as says_white, is_purple as says_purple};

use crate::heads::Colour;

impl Colour {
    pub fn is_black(self) -> bool
        ensures value { result ≡ says_black self }
    {
        self == Colour::Black
    }

    pub fn is_gray(self) -> bool
        ensures value { result ≡ says_gray self }
    {
        self == Colour::Gray
    }

    pub fn is_white(self) -> bool
        ensures value { result ≡ says_white self }
    {
        self == Colour::White
    }

    pub fn is_purple(self) -> bool
        ensures value { result ≡ says_purple self }
    {
        self == Colour::Purple
    }
}
