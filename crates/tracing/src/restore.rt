// Restore: what hangs on a record that is alive turns black, and its links are counted again.
ghost use Rattle.model.proofs.Restores.{restoring_keeps, restoring_opens};
ghost use Rattle.reclaim.specs.Widths.{keeps_over};
ghost use Rattle.model.specs.Collection.{restoring};
ghost use Rattle.model.specs.Colouring.{Restoring, unblack, open_room, open_once};

use model::heads::{Colour, Head};
use reclaim::records::{Records, alter_head, repaint};
use walks::stacked::Stacked;
use walks::steps::Walk;

// Not one with `Mark`: each step is a line, and the rule and the laws are others.
pub struct Restore;

impl<S: Records> Walk<S> for Restore {
    ghost rule = { restoring };

    ghost fits = { λ g Q. Restoring S.Records.shape g Q };

    ghost room = { open_room unblack };

    ghost left = { open_once unblack };

    ghost apart = { λ l. l };

    fn follow(store: &mut S, t: usize) {
        alter_head(store, t, Head::more);
    }

    fn visit(store: &mut S, t: usize, _base: usize) -> bool {
        repaint(store, t, Colour::Black)
    }

    fn leave(_store: &mut S, _t: usize) {}

    ghost keeps = { keeps_over S.Records.shape S.narrow (restoring_keeps S.Records.shape) };

    ghost opens = { restoring_opens S.Records.shape };
}
