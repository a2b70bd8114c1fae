ghost use Rattle.std.specs.Prelude.{◌≡◌, ℕ, ◌≤◌, true, false, length, replicate};
ghost use Rattle.dch_bits.specs.declared.bit.Bit.TheVariants.{Zero};
ghost use Rattle.dch_types.specs.declared.channel.Coding.TheVariants.{Uncoded};
ghost use Rattle.dch_collision.specs.Collisions.{copies_kept, IsFirstCollision, NoneCollide};

use dch_bits::Bit;

/// Whether two blocks that are sent as they are collide: where a bit after the filler is not sent. The first one that
/// looks like zeros has a One in the last such place.
pub fn find_uncoded(filler: usize, sent_flags: &[bool], out: &mut [Bit]) -> bool
    requires filler { filler ≤ length out.old }
    requires coded { length sent_flags.now ≡ length out.old }
    ensures found { result ≡ true →
        IsFirstCollision Uncoded (length out.old) filler (copies_kept sent_flags.now) out.new }
    ensures none { result ≡ false → NoneCollide Uncoded (length out.old) filler (copies_kept sent_flags.now) }
{
    let size = out.len();
    zero(out);
    for done in 0..size - filler {
        let k = size - 1 - done;
        if !sent_flags[k] {
            out[k] = Bit::One;
            return true;
        }
    }
    false
}

fn zero(out: &mut [Bit])
    ensures { out.new ≡ replicate (length out.old) Zero }
{
    out.fill(Bit::Zero);
}
