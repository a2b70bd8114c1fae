ghost use Rattle.std.specs.Prelude.{◌≡◌, ◌+◌, ◌*◌, ◌<◌, ◌≤◌, ℕ, IfSome, length, slice_index_or};
ghost use Rattle.dch_bits.specs.Octets.{bit_of_octets};
ghost use Rattle.dch_bits.specs.declared.bit.Bit.TheVariants.{Zero};
ghost use Rattle.dch_mac.specs.Field.{field_of, field_bits, Names};

use dch_bits::{Bit, unpack};

/// Writes the transport block of a PDU: the C/T field of the logical channel, if one is given, and then the octets of
/// the PDU as bits, the highest first (TS 25.321 9.2.1).
pub fn mux(ct: Option<u8>, pdu: &[u8], out: &mut [Bit])
    requires channel { IfSome ct (λ channel. (1 ≤ channel) × (channel ≤ 15)) }
    requires room { length out.old ≡ field_bits ct + 8 * length pdu.now }
    ensures field { Names ct out.new }
    ensures pdu { (k : ℕ) → k < 8 * length pdu.now →
        slice_index_or out.new (field_bits ct + k) Zero ≡ bit_of_octets pdu.now k }
{
    match ct {
        None => unpack(pdu, out),
        Some(channel) => {
            let (field, rest) = out.split_at_mut(4);
            write_field(channel - 1, field);
            unpack(pdu, rest);
        }
    }
}

/// Writes a number below 16 as four bits, the highest first.
fn write_field(number: u8, out: &mut [Bit])
    requires small { number < 16 }
    requires room { length out.old ≡ 4 }
    ensures { field_of out.new ≡ number }
{
    unpack(&[number * 16], out);
}
