// Numbers that look drawn, and are the same on every run. They are made here and not by the kit's `rand_pcg`, since each of
// its generators draws other numbers, and the totals that the program must print hang on these.
ghost use Rattle.std.specs.Prelude.{◌<◌, ◌≤◌};

#[derive(Drop)]
pub(crate) struct Dice {
    state: u64,
}

impl Dice {
    pub(crate) fn new(seed: u64) -> Dice {
        Dice { state: seed }
    }

    // A number below `sides`; 0 where there is none.
    pub(crate) fn roll(&mut self, sides: usize) -> usize
        ensures below { 1 ≤ sides → result < sides }
        ensures bound { result ≤ sides }
    {
        self.state = self
            .state
            .wrapping_mul(6364136223846793005)
            .wrapping_add(1442695040888963407);
        // the upper half: the lower bits of such a generator repeat soon. `as`, since no From goes from u64 to usize
        let drawn = (self.state >> 32) as usize;
        drawn.checked_rem(sides).unwrap_or(0)
    }

    // True once in so many times.
    pub(crate) fn once_in(&mut self, times: usize) -> bool {
        self.roll(times) == 0
    }

    // One of the records; None where there is none.
    pub(crate) fn choose(&mut self, records: &[usize]) -> Option<usize> {
        records.get(self.roll(records.len())).copied()
    }

    // Swaps the record at each place with that at a drawn one. It goes by places, since a swap names both.
    pub(crate) fn shuffle(&mut self, records: &mut [usize]) {
        for place in 0..records.len() {
            records.swap(place, self.roll(records.len()));
        }
    }
}
