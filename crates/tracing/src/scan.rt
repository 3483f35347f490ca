// Scan: a gray record to which a count is left is alive, and restored; one with none turns white.
ghost use Rattle.model.proofs.Scans.{scanning_keeps, scanning_opens};
ghost use Rattle.reclaim.specs.Widths.{keeps_over};
ghost use Rattle.model.specs.Collection.{scanning};
ghost use Rattle.model.specs.Colouring.{Scanning, gray, open_room, open_once};

use crate::restore::Restore;
use model::heads::Colour;
use reclaim::records::Records;
use walks::run::walk;
use walks::stacked::Stacked;
use walks::steps::Walk;

pub struct Scan;

impl<S: Records> Walk<S> for Scan {
    ghost rule = { scanning };

    ghost fits = { λ g Q. Scanning S.Records.shape g Q };

    ghost room = { open_room gray };

    ghost left = { open_once gray };

    // A restore runs on the part of the stack above: it has at most one entry for each record.
    ghost spare = { λ n. n };

    ghost apart = { λ l. l };

    fn follow(_store: &mut S, _t: usize) {}

    fn visit(store: &mut S, t: usize, base: usize) -> bool {
        let head = store.read_head(t);
        if !head.colour.is_gray() {
            return false;
        }
        if head.count == 0 {
            store.write_head(t, head.painted(Colour::White));
            return true;
        }
        walk::<S, Restore>(store, t, base);
        false
    }

    fn leave(_store: &mut S, _t: usize) {}

    ghost keeps = { keeps_over S.Records.shape S.narrow (scanning_keeps S.Records.shape) };

    ghost opens = { scanning_opens S.Records.shape };
}
