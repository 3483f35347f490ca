// What one walk does at each record.
ghost use Rattle.std.specs.Prelude.{◌≡◌, ℕ, ◌+◌, ◌≤◌, ◌≢◌, List, [], length, take, if◌then◌else◌};
ghost use Rattle.model.specs.Entering.{Opens};
ghost use Rattle.model.specs.Walk.{Progress, Rule, Task, Ready, Keeps};
ghost use Rattle.model.specs.Walk.Task.{follow as to_follow, visit as to_visit, leave as to_leave};

use crate::stacked::Stacked;

// The steps of a walk, which keep to its rule.
pub trait Walk<S: Stacked> {
    ghost rule: { Rule };

    // What the steps rely on, of the store and of the tasks still to be done.
    ghost fits: { Progress → List Task → Type 0 };

    // A bound on the records that can still be entered.
    ghost room: { Progress → List Task → ℕ };

    // How often a record can still be entered: once, or not at all.
    ghost left: { Progress → List Task → ℕ → ℕ };

    // The stack that the steps themselves need, where there are so many records: none, where nothing is said.
    ghost spare: { ℕ → ℕ } = { λ _. 0 };

    // What of the table of the candidate list no step alters: none, where nothing is said.
    ghost apart: { List ℕ → List ℕ } = { λ _. [] };

    // A link to `t` is followed.
    fn follow(store: &mut S, t: usize)
        requires ready { Ready fits (S.Stacked.progress store.old) (to_follow t) }
        requires named { t ≢ 0 }
        ensures meaning { S.Stacked.progress store.new ≡ rule.follow (S.Stacked.progress store.old) t }
        ensures kept { S.Stacked.stack store.new ≡ S.Stacked.stack store.old }
        ensures aside { apart (S.Stacked.table store.new) ≡ apart (S.Stacked.table store.old) };

    // Begins the walk of `t` itself, or passes it; a walk inside may use the stack from `base` on.
    fn visit(store: &mut S, t: usize, base: usize) -> bool
        requires ready { Ready fits (S.Stacked.progress store.old) (to_visit t) }
        requires stack { base + spare (length (S.Stacked.progress store.old).store.rows) ≤ length (S.Stacked.stack store.old) }
        ensures answer { result ≡ rule.enters (S.Stacked.progress store.old) t }
        ensures meaning { S.Stacked.progress store.new ≡ (if result then rule.enter (S.Stacked.progress store.old) t else rule.pass (S.Stacked.progress store.old) t) }
        ensures wide { length (S.Stacked.stack store.new) ≡ length (S.Stacked.stack store.old) }
        ensures below { take base (S.Stacked.stack store.new) ≡ take base (S.Stacked.stack store.old) }
        ensures aside { apart (S.Stacked.table store.new) ≡ apart (S.Stacked.table store.old) };

    // All links of `t` are done.
    fn leave(store: &mut S, t: usize)
        requires ready { Ready fits (S.Stacked.progress store.old) (to_leave t) }
        ensures meaning { S.Stacked.progress store.new ≡ rule.leave (S.Stacked.progress store.old) t }
        ensures kept { S.Stacked.stack store.new ≡ S.Stacked.stack store.old }
        ensures aside { apart (S.Stacked.table store.new) ≡ apart (S.Stacked.table store.old) };

    // Each step keeps what the steps rely on, and that bounds the records still to be entered.
    ghost keeps: { Keeps S.Stacked.width rule fits room };

    // No record is entered twice.
    ghost opens: { Opens rule fits left };
}
