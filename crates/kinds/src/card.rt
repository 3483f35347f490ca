// The score card: links to its player (0), its marker (1) and the next card (2), and a byte for each of 18 holes.
ghost use Rattle.std.specs.Prelude.{◌≡◌, ◌≤◌, length};
ghost use Rattle.std.specs.List.{AllWithin};
ghost use Rattle.kinds.specs.CardKindLemmas.{all_small};
ghost use Rattle.std.proofs.Common.{rules};

use crate::kind::{Kind, Numbers};

#[derive(Clone, Copy)]
pub struct Card {
    ties: [u16; 3],
    holes: [u8; 18],
    // To a law an array is a list of any length and of any numbers, so the card carries how long and how large.
    ghost ties_len: { length ties ≡ 3 },
    ghost ties_small: { AllWithin (λ t. t ≤ 4095) ties 0 3 },
    ghost holes_len: { length holes ≡ 18 },
    ghost holes_small: { AllWithin (λ b. b ≤ 255) holes 0 18 },
}

impl Kind for Card {
    const P: usize = 3;

    const W: usize = 18;

    const CODE: u8 = 1;

    ghost shape = { record { links = 3; bytes = 18; code = 1 } };

    ghost row = { λ c. record { links = c.ties; bytes = c.holes } };

    ghost bounded = { Prim.search rules };

    ghost fits = { λ x.
        record {
          links_fit = x.ties_len;
          bytes_fit = x.holes_len;
          links_small = all_small 3 4095 x.ties x.ties_len x.ties_small;
          bytes_small = all_small 18 255 x.holes x.holes_len x.holes_small;
        } };

    fn numbers() -> Numbers {
        Numbers {
            links: Self::P,
            bytes: Self::W,
            code: Self::CODE,
        }
    }

    fn blank() -> Self {
        Card {
            ties: [0; 3],
            holes: [0; 18],
        }
    }

    fn link(&self, i: usize) -> u16 {
        self.ties.get(i).copied().unwrap_or(0)
    }

    fn set_link(&mut self, i: usize, t: u16) -> bool {
        if i >= Self::P || t > 4095 {
            return false;
        }
        self.ties[i] = t;
        true
    }

    fn byte(&self, j: usize) -> u8 {
        self.holes.get(j).copied().unwrap_or(0)
    }

    fn set_byte(&mut self, j: usize, b: u8) -> bool {
        if j >= Self::W {
            return false;
        }
        self.holes[j] = b;
        true
    }
}
