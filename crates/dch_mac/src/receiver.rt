ghost use Rattle.std.specs.Prelude.{◌≡◌, ◌<◌, ◌≤◌, length, position, IfSome};
ghost use Rattle.dch_config.specs.Bearers.{names};
ghost use Rattle.dch_types.specs.Parts.{channel_number};
ghost use Rattle.dch_mac.specs.Field.{field_of, place_number};
ghost use Rattle.dch_mac.specs.Receivers.{receiver, is_named, only_receiver, receiver_of_field};

use crate::answer::Demux;
use dch_accept::Accepted;
use dch_bits::{Bit, number};
use dch_types::{Bearer, Dir};

/// Finds the bearer of a transport block that came on a channel (TS 25.321 9.2.1). Bits of the C/T field that the block
/// hasn't are read as 0.
pub fn demux(accepted: &Accepted, dir: Dir, channel: u8, block: &[Bit]) -> Demux
    requires { 0 < length block.now }
    ensures { result ≡ receiver accepted.now.config dir channel block.now }
{
    let bearers = accepted.config().bearers.as_slice();
    if accepted.has_ct(dir, channel) {
        receiver_of_field(bearers, dir, channel, field(block))
    } else {
        only_receiver(bearers, dir, channel)
    }
}

/// The bearer that a C/T field names.
fn receiver_of_field(bearers: &[Bearer], dir: Dir, channel: u8, field: u8) -> Demux
    requires few { length bearers.now ≤ 16 }
    requires small { field < 16 }
    ensures { result ≡ receiver_of_field bearers.now dir channel field }
{
    if field == 15 {
        return Demux::Reserved;
    }
    match position_of_logical(bearers, dir, channel, field + 1) {
        Some(bearer) => Demux::To {
            bearer: bearer as u8,
            skip: 4,
        },
        None => Demux::NoBearer(field + 1),
    }
}

/// The bearer of a channel without C/T field.
fn only_receiver(bearers: &[Bearer], dir: Dir, channel: u8) -> Demux
    requires { length bearers.now ≤ 16 }
    ensures { result ≡ only_receiver bearers.now dir channel }
{
    match position_on(bearers, dir, channel) {
        Some(bearer) => Demux::To {
            bearer: bearer as u8,
            skip: 0,
        },
        None => Demux::Nobody,
    }
}

fn position_of_logical(bearers: &[Bearer], dir: Dir, channel: u8, logical: u8) -> Option<usize>
    ensures value { result ≡ position (is_named dir channel logical) bearers.now }
    ensures within { IfSome result (λ b. b < length bearers.now) }
{
    bearers.iter().position(|bearer| is_on(bearer, dir, channel) && bearer.logical == logical)
}

fn position_on(bearers: &[Bearer], dir: Dir, channel: u8) -> Option<usize>
    ensures value { result ≡ position (λ bearer. names (channel_number dir bearer) channel) bearers.now }
    ensures within { IfSome result (λ b. b < length bearers.now) }
{
    bearers
        .iter()
        .position(|bearer| is_on(bearer, dir, channel))
}

fn is_on(bearer: &Bearer, dir: Dir, channel: u8) -> bool
    ensures { result ≡ names (channel_number dir bearer.now) channel }
{
    match bearer.channel(dir) {
        None => false,
        Some(i) => i == channel,
    }
}

/// The number that the first four bits of a block write, the highest first.
fn field(block: &[Bit]) -> u8
    ensures value { result ≡ field_of block.now }
    ensures small { result < 16 }
{
    8 * place(block, 0) + 4 * place(block, 1) + 2 * place(block, 2) + place(block, 3)
}

/// Bit `k` of a block as a number; 0 past its end.
fn place(block: &[Bit], k: usize) -> u8
    ensures value { result ≡ place_number block.now k }
    ensures small { result < 2 }
{
    if k < block.len() { number(block[k]) } else { 0 }
}
