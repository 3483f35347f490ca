// The walk as a loop.
ghost use Rattle.std.specs.Prelude.{◌≡◌, ◌+◌, ◌<◌, ◌≤◌, true, [], ◌∷◌, length, take};
ghost use Rattle.model.specs.Entering.{Laws};
ghost use Rattle.model.specs.Walk.{Ready, full};
ghost use Rattle.model.specs.Walk.Task.{visit as to_visit};
ghost use Rattle.walks.specs.Begun.{Begun};

use crate::stacked::Stacked;
use crate::steps::Walk;

// Visits record `t`, and puts it on the stack, which ends before `top`, if it is entered. Says where the stack ends then.
fn begin<S: Stacked, W: Walk<S>>(store: &mut S, t: usize, top: usize) -> usize
    requires ready { Ready W.Walk.fits (S.Stacked.progress store.old) (to_visit t) }
    requires named { t ≤ 4095 }
    requires stack { top + W.Walk.spare (length (S.Stacked.progress store.old).store.rows) ≤ length (S.Stacked.stack store.old) }
    requires free { W.Walk.rule.enters (S.Stacked.progress store.old) t ≡ true → top < length (S.Stacked.stack store.old) }
    ensures begun { Begun W.Walk.rule t top (S.Stacked.progress store.old) (S.Stacked.stack store.old) (S.Stacked.progress store.new) (S.Stacked.stack store.new) result }
    ensures aside { W.Walk.apart (S.Stacked.table store.new) ≡ W.Walk.apart (S.Stacked.table store.old) }
{
    if !W::visit(store, t, top) {
        return top;
    }
    store.put(top, t * 32);
    top + 1
}

// Walks depth first from `root`, over the links from link 0 upward. The stack's entries from `base` on are the records
// entered and not left, the innermost last: each is one number, the record times 32 and its next link, since the host lends the
// table as numbers of 32 bits and there is no heap for a stack of another form.
pub fn walk<S: Stacked, W: Walk<S>>(store: &mut S, root: usize, base: usize)
    requires fits { W.Walk.fits (S.Stacked.progress store.old) (to_visit root ∷ []) }
    requires stack { base + (length (S.Stacked.progress store.old).store.rows + W.Walk.spare (length (S.Stacked.progress store.old).store.rows)) ≤ length (S.Stacked.stack store.old) }
    ensures meaning { S.Stacked.progress store.new ≡ full W.Walk.rule (S.Stacked.progress store.old) root }
    ensures laws { Laws W.Walk.rule (S.Stacked.progress store.old) root }
    ensures fits { W.Walk.fits (S.Stacked.progress store.new) [] }
    ensures wide { length (S.Stacked.stack store.new) ≡ length (S.Stacked.stack store.old) }
    ensures below { take base (S.Stacked.stack store.new) ≡ take base (S.Stacked.stack store.old) }
    ensures aside { W.Walk.apart (S.Stacked.table store.new) ≡ W.Walk.apart (S.Stacked.table store.old) }
{
    let p = S::links();
    let mut top = begin::<S, W>(store, root, base);
    while top > base {
        let n = store.entry(top - 1);
        let r = n / 32;
        let i = n % 32;
        if i >= p {
            top -= 1;
            W::leave(store, r);
        } else {
            store.put(top - 1, n + 1);
            let t = store.link(r, i);
            if t != 0 {
                W::follow(store, t);
                top = begin::<S, W>(store, t, top);
            }
        }
    }
}
