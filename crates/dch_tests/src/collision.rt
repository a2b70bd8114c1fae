ghost use Rattle.std.specs.Prelude.{◌≡◌, ◌≤◌, length};

use dch_bits::{Bit, bits_text};
use dch_collision::Collider;
use dch_types::Coding;
use std::process::Abort;
use std::test::Fail;

/// Which letters are `1`.
fn read_flags(text: &[u8], sent_flags: &mut [bool])
    requires { length sent_flags.old ≡ length text.now }
{
    for (i, letter) in text.iter().enumerate() {
        sent_flags[i] = *letter == b'1';
    }
}

/// The block of six bits that looks like zeros where these coded bits are sent; no letters where there is none.
fn found(
    rt: &impl Abort,
    collider: &mut Collider,
    coding: Coding,
    filler: usize,
    sent_flags: &[u8],
) -> [u8; 6]
    requires { 6 ≤ collider.old }
    ensures { collider.new ≡ collider.old }
{
    let mut flags = [false; 42];
    assert!(rt; filler <= 6 && sent_flags.len() <= 42);
    assert!(rt; coding.coded_block(6) == sent_flags.len() as u64);
    read_flags(sent_flags, &mut flags[..sent_flags.len()]);
    let mut out = [Bit::One; 6];
    let mut letters = [b' '; 6];
    if collider.find(coding, filler, &flags[..sent_flags.len()], &mut out) {
        bits_text(&out, &mut letters);
    }
    letters
}

const HALF: &[u8] = b"1100000100000000001001001000";

const THIRD: &[u8] = b"000000010000000010000000000000010000000000";

#[test]
fn first_blocks(rt: HostRuntime) -> Result<(), Fail> {
    let mut collider = Collider::open(rt.alloc(), 6)?;
    let half = found(&rt, &mut collider, Coding::Half, 2, HALF);
    let none = found(&rt, &mut collider, Coding::Half, 3, HALF);
    let third = found(&rt, &mut collider, Coding::Third, 4, THIRD);
    let plain = found(&rt, &mut collider, Coding::Uncoded, 2, b"010111");
    assert!(rt; half == *b"001100" && none == *b"      ");
    assert!(rt; third == *b"000011" && plain == *b"001000");
    Ok(())
}
