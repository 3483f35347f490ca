// The changes of one head. Each is one step of a call or of a collection, and leaves every other part as it was; opposite ones
// are two functions, since one for both would have to be told which way. The clause
// `lawful` says when what it leaves is a head: no more holds than its count, and each number within its width.
ghost use Rattle.std.specs.Prelude.{◌<◌, ◌≡◌};
ghost use Rattle.model.specs.Headers.{more_one, unlisted as unlisted_header, painted as painted_header, less_one, suspected as suspected_header, header, raised as raised_header, held_more, held_less};

use crate::heads::{Colour, Head};

impl Head {
    // One hold more, for which the count has room.
    pub fn held_more(mut self) -> Head
        requires lawful { (self.holds < self.count) × (self.holds < 65535) }
        ensures value { header result ≡ held_more (header self) }
    {
        self.holds += 1;
        self
    }

    // One hold less.
    pub fn held_less(mut self) -> Head
        requires lawful { 0 < self.holds }
        ensures value { header result ≡ held_less (header self) }
    {
        self.holds -= 1;
        self
    }

    // One reference more, colour kept.
    pub fn more(mut self) -> Head
        requires lawful { self.count < 4294967295 }
        ensures value { header result ≡ more_one (header self) }
    {
        self.count += 1;
        self
    }

    // Raise: one reference more, and no longer suspected.
    pub fn raised(self) -> Head
        requires lawful { self.count < 4294967295 }
        ensures value { header result ≡ raised_header (header self) }
    {
        self.more().painted(Colour::Black)
    }

    // One reference less, which is not one of the holds.
    pub fn lessened(mut self) -> Head
        requires lawful { self.holds < self.count }
        ensures value { header result ≡ less_one (header self) }
    {
        self.count -= 1;
        self
    }

    // Another colour.
    pub fn painted(mut self, colour: Colour) -> Head
        ensures value { header result ≡ painted_header colour (header self) }
    {
        self.colour = colour;
        self
    }

    // Suspected of hanging in a dead ring, and waiting for a collection.
    pub fn suspected(mut self) -> Head
        ensures value { header result ≡ suspected_header (header self) }
    {
        self.colour = Colour::Purple;
        self.waiting = true;
        self
    }

    // No longer waiting for a collection.
    pub fn unlisted(mut self) -> Head
        ensures value { header result ≡ unlisted_header (header self) }
    {
        self.waiting = false;
        self
    }
}
