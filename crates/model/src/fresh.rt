// Heads as they are before a store is made over them.
ghost use Rattle.std.specs.Prelude.{◌≡◌};
ghost use Rattle.model.specs.Headers.{header, free_header};

use crate::heads::{Colour, Head};

impl Head {
    // The head of a free record; the chain of free records goes on at `next`.
    pub fn free(next: u16) -> Head
        ensures value { header result ≡ free_header next }
    {
        Head {
            used: false,
            holds: 0,
            count: 0,
            colour: Colour::Black,
            waiting: false,
            next,
        }
    }
}
