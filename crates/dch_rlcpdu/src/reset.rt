ghost use Rattle.std.specs.Prelude.{◌≡◌, ◌<◌, ◌≤◌, ◌^◌, Ok, length, if◌then◌else◌};
ghost use Rattle.dch_rlcpdu.specs.Am.{am_reading, reset_written, IsAm};
ghost use Rattle.dch_rlcpdu.specs.AmControl.{reset_text};

/// Writes a RESET, or with `ack` a RESET ACK, of this RSN and HFNI (TS 25.322 9.2.1.7): 4 octets, and zeros in the
/// octets behind them. A RESET ACK answers the RESET whose RSN it bears.
pub fn write_reset(ack: bool, rsn: bool, hfni: u32, out: &mut [u8])
    requires number { hfni < 2 ^ 20 }
    requires room { 4 ≤ length out.old }
    ensures text { out.new ≡ reset_text (if ack then 2 else 1) rsn hfni (length out.old) }
    // what was written is read
    ensures back { IsAm out.new (reset_written ack rsn hfni) }
    ensures reading { am_reading out.new ≡ Ok (reset_written ack rsn hfni) }
{
    write_octets(ack, rsn, hfni, out);
}

/// The octets alone.
fn write_octets(ack: bool, rsn: bool, hfni: u32, out: &mut [u8])
    requires number { hfni < 2 ^ 20 }
    requires room { 4 ≤ length out.old }
    ensures { out.new ≡ reset_text (if ack then 2 else 1) rsn hfni (length out.old) }
{
    let kind: u8 = if ack { 2 } else { 1 };
    out.fill(0);
    out[0] = 16 * kind + 8 * u8::from(rsn);
    out[1] = (hfni / 4096) as u8;
    out[2] = (hfni / 16 % 256) as u8;
    out[3] = (hfni % 16) as u8 * 16;
}
