// What a store holds, as what the calls need.
use crate::contents::Contents;
use crate::counts::count_used;
use kinds::kind::{Kind, Numbers};
use reclaim::records::Records;
use steps::fields::Fields;
use walks::stacked::Stacked;

impl<'a, K: Kind> Fields for Contents<'a, K> {
    fn size(&self) -> usize {
        self.n
    }

    fn fields() -> Numbers {
        K::numbers()
    }

    fn write_link(&mut self, r: usize, l: usize, t: usize) {
        let mut record = self.record(r);
        // `as`: the number is known to fit, and `try_from` would add a branch that is never taken
        record.set_link(l, t as u16);
        self.set_record(r, record);
    }

    fn read_byte(&self, r: usize, b: usize) -> u8 {
        self.record(r).byte(b)
    }

    fn put_byte(&mut self, r: usize, b: usize, v: u8) {
        let mut record = self.record(r);
        record.set_byte(b, v);
        self.set_record(r, record);
    }

    fn front(&self) -> usize {
        self.front
    }

    fn set_front(&mut self, r: usize) {
        self.front = r;
    }

    fn used(&self) -> usize {
        count_used(&self.tables.heads[..self.n])
    }

    fn given(&self) -> usize {
        self.given
    }

    fn start(&mut self) {
        self.given = 0;
    }

    ghost bounded = { K.bounded };
}
