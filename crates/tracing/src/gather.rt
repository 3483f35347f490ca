// Gather: a white record that no longer waits is given up, once what it links to is gathered.
ghost use Rattle.model.proofs.Gathers.{gathering_keeps, gathering_opens};
ghost use Rattle.reclaim.specs.Widths.{keeps_over};
ghost use Rattle.model.specs.Collection.{gathering};
ghost use Rattle.model.specs.Colouring.{Gathering, white, open_room, open_once};
ghost use Rattle.model.specs.Releasing.{FewGiven};

use model::heads::Colour;
use reclaim::records::Records;
use walks::stacked::Stacked;
use walks::steps::Walk;

pub struct Gather;

impl<S: Records> Walk<S> for Gather {
    ghost rule = { gathering S.Records.shape };

    ghost fits = { λ g Q. Gathering S.Records.shape g Q × FewGiven g };

    ghost room = { open_room white };

    ghost left = { open_once white };

    ghost apart = { λ l. l };

    fn follow(_store: &mut S, _t: usize) {}

    fn visit(store: &mut S, t: usize, _base: usize) -> bool {
        let head = store.read_head(t);
        if !head.colour.is_white() || head.waiting {
            return false;
        }
        store.write_head(t, head.painted(Colour::Black));
        true
    }

    fn leave(store: &mut S, t: usize) {
        store.give_up(t);
    }

    ghost keeps = { keeps_over S.Records.shape S.narrow (gathering_keeps S.Records.shape) };

    ghost opens = { gathering_opens S.Records.shape };
}
