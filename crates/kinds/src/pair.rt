// The cell of the scripts: two links and a byte in one number of 32 bits.
// Bits 0 to 11 hold link 0, bits 12 to 23 link 1, and bits 24 to 31 the byte, as the rules fix it; every number is a cell.
// A write packs the cell anew from what it keeps and what it is given, so that no bit of a neighbour can be lost.
ghost use Rattle.std.specs.Prelude.{◌≡◌, ◌^◌, ◌<◌, ◌≤◌, [], ◌∷◌};
ghost use Rattle.kinds.specs.Words.{unpacked};
ghost use Rattle.std.proofs.Common.{rules};

use crate::kind::{Kind, Numbers};

#[derive(Clone, Copy)]
pub struct Pair {
    word: u32,
    // To a law a number may have any size, so the cell carries that this one has 32 bits.
    ghost whole: { word < 2 ^ 32 },
}

impl Pair {
    // The cell with these two links and this byte.
    #[tactic(auto, using(crate::proofs::Packing::packing_read))]
    fn packed(first: u16, second: u16, byte: u8) -> Self
        requires { (first ≤ 4095) × (second ≤ 4095) }
        ensures value { unpacked result.word ≡ record { links = first ∷ second ∷ []; bytes = byte ∷ [] } }
    {
        Pair {
            word: u32::from(byte) << 24 | u32::from(second) << 12 | u32::from(first),
        }
    }
}

impl Kind for Pair {
    const P: usize = 2;

    const W: usize = 1;

    const CODE: u8 = 2;

    ghost shape = { record { links = 2; bytes = 1; code = 2 } };

    ghost row = { λ p. unpacked p.word };

    ghost bounded = { Prim.search rules };

    ghost fits = { Prim.search rules };

    fn numbers() -> Numbers {
        Numbers {
            links: Self::P,
            bytes: Self::W,
            code: Self::CODE,
        }
    }

    fn blank() -> Self {
        Pair { word: 0 }
    }

    #[tactic(auto, using(crate::proofs::Packing::low_twelve))]
    fn link(&self, i: usize) -> u16 {
        // `as`, since no From goes from u32 to u16: the mask leaves 12 bits
        match i {
            0 => (self.word & 0xfff) as u16,
            1 => (self.word >> 12 & 0xfff) as u16,
            _ => 0,
        }
    }

    fn set_link(&mut self, i: usize, t: u16) -> bool {
        if i >= Self::P || t > 4095 {
            return false;
        }
        if i == 0 {
            *self = Pair::packed(t, self.link(1), self.byte(0));
        } else {
            *self = Pair::packed(self.link(0), t, self.byte(0));
        }
        true
    }

    fn byte(&self, j: usize) -> u8 {
        // `as`, since no From goes from u32 to u8: the shift leaves 8 bits
        if j == 0 { (self.word >> 24) as u8 } else { 0 }
    }

    fn set_byte(&mut self, j: usize, b: u8) -> bool {
        if j >= Self::W {
            return false;
        }
        *self = Pair::packed(self.link(0), self.link(1), b);
        true
    }
}
