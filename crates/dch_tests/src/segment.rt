ghost use Rattle.std.specs.Prelude.{◌≤◌};

use dch_coding::plan;
use dch_types::Coding;

/// Whether so many bits are cut into so many blocks of this size, the first with so much filler.
fn is_cut(bits: usize, coding: Coding, blocks: usize, size: usize, filler: usize) -> bool
    requires { bits ≤ 5000 }
{
    let cut = plan(bits, coding);
    cut.bits == bits && cut.blocks == blocks && cut.size == size && cut.filler == filler
}

#[test]
fn plans_of_some_lengths(rt: HostRuntime) {
    assert!(rt; is_cut(505, Coding::Third, 2, 253, 1));
    assert!(rt; is_cut(1009, Coding::Half, 3, 337, 2));
    assert!(rt; is_cut(5000, Coding::Uncoded, 1, 5000, 0));
    assert!(rt; is_cut(0, Coding::Half, 0, 0, 0));
}
