// The head of a record as it is taken into use.
ghost use Rattle.std.specs.Prelude.{◌≡◌};
ghost use Rattle.model.specs.Headers.{header, made_header};

use crate::heads::{Colour, Head};

impl Head {
    // The head of a record just made: in use, held once, referred to by that hold alone. Each field is written, since a struct
    // with a ghost field takes no `..`.
    pub fn made() -> Head
        ensures value { header result ≡ made_header }
    {
        Head {
            used: true,
            holds: 1,
            count: 1,
            colour: Colour::Black,
            waiting: false,
            next: 0,
        }
    }
}
