// A store of a host's own that a walk can go over: one record, which has one link, and one entry for the stack.
ghost use Rattle.std.specs.Prelude.{[], ◌∷◌};
ghost use Rattle.std.proofs.Common.{rules};

use walks::stacked::Stacked;

#[derive(Drop)]
struct Least {
    target: u16,
    entry: u32,
}

// A walk over it enters one record at most, so that one entry is enough for it.
impl Stacked for Least {
    ghost progress = { λ s. record {
      store = record { heads = []; rows = record { links = s.target ∷ []; bytes = [] } ∷ []; candidates = []; front = 0 };
      given = 0;
    } };

    ghost stack = { λ s. s.entry ∷ [] };

    ghost width = { 1 };

    fn links() -> usize {
        1
    }

    fn link(&self, _r: usize, _i: usize) -> usize {
        usize::from(self.target)
    }

    fn entry(&self, _at: usize) -> usize {
        self.entry as usize
    }

    fn put(&mut self, _at: usize, n: usize) {
        self.entry = n as u32;
    }

    ghost few = { λ s. Prim.search rules };
}

// It has what a walk asks of a store.
#[test]
fn one_entry(rt: HostRuntime) {
    let mut least = Least {
        target: 1,
        entry: 0,
    };
    least.put(0, 33);
    assert_eq!(rt; [least.link(1, 0), least.entry(0)], [1, 33]);
}
