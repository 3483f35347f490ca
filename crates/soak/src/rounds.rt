// One round: a store is filled, its records are tied to each other, let go and collected, and nothing is left.
ghost use Rattle.std.specs.Prelude.{◌<◌};

use crate::dice::Dice;
use crate::host::{Host, NO_RECORD};
use kinds::kind::Kind;
use model::calls::Call;

// How the records of a round are tied by their first links.
#[derive(Clone, Copy)]
enum Shape {
    // each to the next, and the last to the first
    Ring,
    // rings of so many
    Rings(usize),
    // a ring with branching tails that lead to it
    Tails,
    // to any record, itself too
    Drawn,
}

impl Shape {
    fn draw(dice: &mut Dice) -> Shape {
        match dice.roll(4) {
            0 => Shape::Ring,
            1 => Shape::Rings(dice.roll(12)),
            2 => Shape::Tails,
            _ => Shape::Drawn,
        }
    }

    // The place that place `i` of `n` links to, beside a drawn one.
    fn next_place(self, i: usize, n: usize, drawn: usize) -> usize
        requires place { i < n }
        requires drawn { drawn < n }
        ensures { result < n }
    {
        match self {
            Shape::Ring => (i + 1) % n,
            Shape::Rings(size) => {
                let turn = size.max(1);
                if (i + 1) % turn == 0 || i + 1 == n {
                    i - i % turn
                } else {
                    i + 1
                }
            }
            Shape::Tails => { if i == 0 { n - 1 } else { (i - 1) / 2 } }
            Shape::Drawn => drawn,
        }
    }
}

// What a host does in a round. `made` are the records that it makes then. A struct of the host, them and the round's number
// would be no plainer: each call would go through its field, and the number serves only two methods.
impl<K: Kind> Host<'_, K> {
    // Makes a marked record for each place.
    fn fill(&mut self, made: &mut [usize], round: usize) {
        for place in made {
            *place = self.make_marked(round);
        }
    }

    // Links each record by its first link as the shape says.
    fn tie(&mut self, made: &[usize], shape: Shape) {
        for (i, &r) in made.iter().enumerate() {
            let drawn = self.dice.roll(made.len());
            let next = shape.next_place(i, made.len(), drawn);
            self.call(Call::Link(r, 0, made[next]));
        }
    }

    // Links some records by any of their links to any other; a first link that goes may part a ring.
    fn cross(&mut self, made: &[usize]) {
        for &r in made {
            if self.dice.once_in(3) {
                let link = self.dice.roll(K::numbers().links);
                let other = made[self.dice.roll(made.len())];
                self.call(Call::Link(r, link, other));
            }
        }
    }

    // Ties the records in a drawn way.
    fn tie_all(&mut self, made: &[usize]) {
        let shape = Shape::draw(&mut self.dice);
        self.tie(made, shape);
        if self.dice.once_in(2) {
            self.cross(made);
        }
    }

    // Drops every record, with a collection now and then.
    fn let_go(&mut self, made: &[usize]) {
        for &r in made {
            self.call(Call::Drop(r));
            if self.dice.once_in(32) {
                self.collect();
            }
        }
    }

    // Goes from a held record along links, mostly first ones, and says whether each record that it came to had its mark. One
    // hold goes along, and is dropped at the end.
    fn stroll(&mut self, from: usize, steps: usize, round: usize) -> bool {
        self.call(Call::Hold(from));
        let mut at = from;
        let mut marked = self.is_marked(from, round);
        for _ in 0..steps {
            let link = if self.dice.once_in(4) {
                self.dice.roll(K::numbers().links)
            } else {
                0
            };
            if let Some(next) = self.number(Call::Load(at, link)) {
                marked &= self.is_marked(next, round);
                self.call(Call::Drop(at));
                at = next;
            }
        }
        self.call(Call::Drop(at));
        marked
    }

    // One record is held outside the rings and links into them, now and then to nothing. What hangs on it lives on, with its
    // marks, until it is dropped.
    pub(crate) fn play_round(&mut self, places: &mut [usize], round: usize) {
        let size = self.dice.roll(places.len());
        let made = &mut places[..size];
        let outside = self.make_marked(round);
        self.fill(made, round);
        // numbers that follow each other are seldom neighbours then
        self.dice.shuffle(made);
        self.tie_all(made);
        let inside = if self.dice.once_in(8) {
            None
        } else {
            self.dice.choose(made)
        };
        self.call(Call::Link(outside, 0, inside.unwrap_or(NO_RECORD)));
        self.let_go(made);
        self.collect();
        let survived = self.stroll(outside, size, round);
        self.call(Call::Drop(outside));
        let left = self.collect();
        self.totals.note_round(survived, left == Some(0));
    }
}
