// What the heads count.
ghost use Rattle.std.specs.Prelude.{◌≡◌, count_by};

use model::heads::Head;

// How many of the heads are of records in use. A loop, since each tally goes over all of them: a chain with `filter` and `count`
// took twice its time, and with `take` before them six times.
pub(crate) fn count_used(heads: &[Head]) -> usize
    ensures value { result ≡ count_by (λ h. h.used) heads.now }
{
    let mut used = 0;
    for head in heads {
        if head.used {
            used += 1;
        }
    }
    used
}
