// Mark: what hangs on a candidate turns gray, and each link of a gray record is taken from the count of its target.
ghost use Rattle.model.proofs.Marks.{marking_keeps, marking_opens};
ghost use Rattle.reclaim.specs.Widths.{keeps_over};
ghost use Rattle.model.specs.Collection.{marking};
ghost use Rattle.model.specs.Colouring.{Marking, ungray, open_room, open_once};

use model::heads::{Colour, Head};
use reclaim::records::{Records, alter_head, repaint};
use walks::stacked::Stacked;
use walks::steps::Walk;

// Not one with `Restore`: each step is a line, and the rule and the laws are others.
pub struct Mark;

impl<S: Records> Walk<S> for Mark {
    ghost rule = { marking };

    ghost fits = { λ g Q. Marking S.Records.shape g Q };

    ghost room = { open_room ungray };

    ghost left = { open_once ungray };

    ghost apart = { λ l. l };

    fn follow(store: &mut S, t: usize) {
        alter_head(store, t, Head::lessened);
    }

    fn visit(store: &mut S, t: usize, _base: usize) -> bool {
        repaint(store, t, Colour::Gray)
    }

    fn leave(_store: &mut S, _t: usize) {}

    ghost keeps = { keeps_over S.Records.shape S.narrow (marking_keeps S.Records.shape) };

    ghost opens = { marking_opens S.Records.shape };
}
