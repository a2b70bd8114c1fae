ghost use Rattle.std.specs.Prelude.{◌≡◌, ◌<◌, ◌≤◌, ◌+◌, ◌*◌, length};
ghost use Rattle.dch_mac.specs.Field.{field_bits};
ghost use Rattle.dch_layer2.specs.Octets.{AreOctets, bits_of, block_of};
ghost use Rattle.dch_layer2.specs.Shapes.{IsNumber};

use dch_bits::{Bit, pack};
use dch_mac::mux;

/// Writes the transport block of a PDU, with the C/T field of a logical channel, if one is given.
pub fn write_block(ct: Option<u8>, pdu: &[u8], out: &mut [Bit])
    requires channel { IsNumber ct }
    requires room { length out.old ≡ field_bits ct + 8 * length pdu.now }
    ensures block { out.new ≡ block_of ct pdu.now }
    ensures octets { AreOctets pdu.now }
    ensures long { length out.new ≡ field_bits ct + 8 * length pdu.now }
{
    mux(ct, pdu, out);
}

/// Reads the octets of a PDU, which these bits are.
pub fn read_octets(bits: &[Bit], out: &mut [u8])
    requires { length bits.now ≡ 8 * length out.old }
    ensures bits { bits.now ≡ bits_of out.new }
    ensures octets { AreOctets out.new }
{
    pack(bits, out);
}
