ghost use Rattle.std.specs.Prelude.{◌<◌};

use dch_bits::{Bit, bits_text};
use dch_tfci::{Tfci, find, send};

/// Whether the word of an index has these bits.
fn is_sent(index: u16, text: &[u8; 30]) -> bool
    requires { index < 1024 }
{
    let mut bits = [Bit::Zero; 30];
    send(index, &mut bits);
    let mut letters = [0; 30];
    bits_text(&bits, &mut letters);
    letters == *text
}

/// The index that is found where four bits of its word, each `step` behind the one before it, are turned, and the
/// distance.
fn found(index: u16, step: usize) -> Tfci
    requires { index < 1024 }
{
    let mut bits = [Bit::Zero; 30];
    send(index, &mut bits);
    for n in 0..4usize {
        let place = n * (step % 10);
        bits[place] = match bits[place] {
            Bit::Zero => Bit::One,
            Bit::One => Bit::Zero,
        };
    }
    find(&bits)
}

#[test]
fn words_of_thirty_bits(rt: HostRuntime) {
    assert!(rt; is_sent(0, b"000000000000000000000000000000"));
    assert!(rt; is_sent(1, b"101010101010101101010101010101"));
    assert!(rt; is_sent(1023, b"010100100001001100000001011100"));
    for (index, step) in [(0, 1), (1, 7), (1023, 9)] {
        assert!(rt; found(index, step) == Tfci { index, distance: 4 });
    }
}
