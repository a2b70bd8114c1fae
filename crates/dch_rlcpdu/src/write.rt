ghost use Rattle.std.specs.Prelude.{◌≡◌, ◌+◌, ◌*◌, ◌<◌, ◌≤◌, ◌++◌, ◌∷◌, [], All, Some, length};
ghost use Rattle.std.specs.Int.{div_ceil};
ghost use Rattle.dch_rlcpdu.specs.Fields.{mrw_ack_fields, mrw_fields, mrw_status_fields, status_fields};
ghost use Rattle.dch_rlcpdu.specs.Reading.{status_of};
ghost use Rattle.dch_rlcpdu.specs.Writing.{IsText, mrw_ack_text, mrw_text, status_text};

use crate::put::{put_mrw, put_mrw_ack, put_status, start};

/// Writes the status PDU that says: all below `lsn` has arrived but these runs of missing numbers, each its first
/// number and how many follow it (TS 25.322 9.2.1.5). Fifteen pairs stand in each LIST, and zeros behind the status.
pub fn write_ack(pairs: &[(u16, u8)], lsn: u16, out: &mut [u8])
    // in bits
    requires fit { 20 + 8 * div_ceil (length pairs.now) 15 + 16 * length pairs.now ≤ 8 * length out.old }
    requires pairs { All (λ p. (p.0 < 4096) × (p.1 < 16)) pairs.now }
    requires number { lsn < 4096 }
    ensures text { IsText out.new (0 ∷ status_text pairs.now lsn) }
    // what was written is read
    ensures back { status_of out.new ≡ Some (status_fields pairs.now lsn) }
{
    start(out);
    put_status(out, 1, pairs, lsn);
}

/// Writes the control PDU that moves the receiver's window up to number `sn`, and up to the `n`-th end in that PDU
/// (TS 25.322 9.2.2.11), and NO_MORE. Zeros follow.
pub fn write_mrw(sn: u16, n: u8, out: &mut [u8])
    requires fit { 4 ≤ length out.old }
    requires number { sn < 4096 }
    requires end { n < 16 }
    ensures text { IsText out.new (0 ∷ mrw_text sn n) }
    // what was written is read
    ensures back { status_of out.new ≡ Some (mrw_fields sn n) }
{
    start(out);
    put_mrw(out, 1, sn, n);
}

/// Writes the control PDU that says that the window was moved (TS 25.322 9.2.2.11), and NO_MORE. Zeros follow.
pub fn write_mrw_ack(n: u8, sn: u16, out: &mut [u8])
    requires fit { 4 ≤ length out.old }
    requires number { sn < 4096 }
    requires end { n < 16 }
    ensures text { IsText out.new (0 ∷ mrw_ack_text n sn) }
    // what was written is read
    ensures back { status_of out.new ≡ Some (mrw_ack_fields n sn) }
{
    start(out);
    put_mrw_ack(out, 1, n, sn);
}

/// Writes the status PDU that says that the window was moved, and then what `write_ack` says.
pub fn write_mrw_status(n: u8, sn: u16, pairs: &[(u16, u8)], lsn: u16, out: &mut [u8])
    // in bits
    requires fit { 40 + 8 * div_ceil (length pairs.now) 15 + 16 * length pairs.now ≤ 8 * length out.old }
    requires mrw { sn < 4096 }
    requires end { n < 16 }
    requires pairs { All (λ p. (p.0 < 4096) × (p.1 < 16)) pairs.now }
    requires number { lsn < 4096 }
    ensures text { IsText out.new (0 ∷ (mrw_ack_text n sn ++ status_text pairs.now lsn)) }
    // what was written is read
    ensures back { status_of out.new ≡ Some (mrw_status_fields n sn pairs.now lsn) }
{
    start(out);
    put_mrw_ack(out, 1, n, sn);
    put_status(out, 6, pairs, lsn);
}
