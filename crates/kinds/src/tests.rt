// Each kind at the ends of its links, of its bytes and of a link's numbers: what is written is read back and leaves
// its neighbours, what is refused alters nothing, and past the end there is 0.
use crate::card::Card;
use crate::kind::Kind;
use crate::pair::Pair;

#[test]
fn card_ends(rt: HostRuntime) {
    let mut card = Card::blank();
    assert_eq!(rt;
        [card.set_byte(17, 255), card.set_byte(18, 7)],
        [true, false]
    );
    assert_eq!(rt;
        [
            card.set_link(2, 4095),
            card.set_link(2, 4096),
            card.set_link(3, 1),
        ],
        [true, false, false]
    );
    assert_eq!(rt; [card.link(1), card.link(2), card.link(3)], [0, 4095, 0]);
    assert_eq!(rt;
        [card.byte(0), card.byte(16), card.byte(17), card.byte(18)],
        [0, 0, 255, 0]
    );
}

#[test]
fn pair_ends(rt: HostRuntime) {
    let mut pair = Pair::blank();
    assert_eq!(rt; [pair.set_byte(0, 170), pair.set_byte(1, 7)], [true, false]);
    assert_eq!(rt;
        [
            pair.set_link(1, 4095),
            pair.set_link(1, 4096),
            pair.set_link(2, 1),
        ],
        [true, false, false]
    );
    assert_eq!(rt; [pair.link(0), pair.link(1), pair.link(2)], [0, 4095, 0]);
    assert_eq!(rt; [pair.byte(0), pair.byte(1)], [170, 0]);
}
