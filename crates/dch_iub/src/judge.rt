ghost use Rattle.std.specs.Prelude.{◌≡◌, ◌+◌, ◌==◌, ◌<◌, ◌≤◌, ℕ, List, length, if◌then◌else◌, IfOk, IfErr, OnOk};
ghost use Rattle.dch_types.specs.Limits.{IsSide};
ghost use Rattle.dch_types.specs.Parts.{channel_at};
ghost use Rattle.dch_iub.specs.Answers.{AreRead, IsFault, IsSound, Judges, Reads};
ghost use Rattle.dch_iub.specs.Shape.{header_octets};

use crate::check::{header_fits, payload_fits};
use crate::error::IubError;
use crate::shape::{check_octets, shape_of, tail_octets};
use dch_types::{Dir, Side};

/// One if a channel belongs to a set, or else zero.
fn member(side: &Side, set: u8, channel: usize) -> usize
    requires side { IsSide side.now }
    requires channel { channel < length side.now.channels }
    ensures value { result ≡ (if (channel_at side.now channel).set == set then 1 else 0) }
    ensures one { result ≤ 1 }
{
    usize::from(side.channel(channel).set == set)
}

/// The octets of the header of a set's frames.
fn header_octets(side: &Side, set: u8) -> usize
    requires { IsSide side.now }
    ensures value { result ≡ header_octets side.now set }
    ensures few { result ≤ 10 }
{
    let mut header = 2;
    for i in 0..side.channels.len() {
        header += member(side, set, i);
    }
    header
}

/// Whether a frame begins with the sound header of a data frame.
fn judge_header(dir: Dir, side: &Side, on: bool, set: u8, frame: &[u8]) -> Result<(), IubError>
    requires { IsSide side.now }
    ensures sound { OnOk result (IsSound side.now set frame.now) }
    ensures refused { IfErr result (IsFault dir side.now on set frame.now) }
{
    if frame.is_empty() {
        return Err(IubError::Short);
    }
    if frame[0] % 2 == 1 {
        return Err(IubError::Control);
    }
    let header = header_octets(side, set);
    if frame.len() < header {
        return Err(IubError::Short);
    }
    if !header_fits(frame, header) {
        return Err(IubError::HeaderCheck);
    }
    Ok(())
}

/// The format number of a channel, if the channel belongs to a set, from its octet; or the number that is none.
fn read_number(side: &Side, set: u8, channel: usize, frame: &[u8], at: usize) -> Result<u8, u8>
    requires side { IsSide side.now }
    requires channel { channel < length side.now.channels }
    requires inside { at + (if (channel_at side.now channel).set == set then 1 else 0) ≤ length frame.now }
    ensures { Reads side.now set frame.now channel at result }
{
    let channel = side.channel(channel);
    if channel.set != set {
        return Ok(0);
    }
    let number = frame[at] % 32;
    if usize::from(number) < channel.formats.len() {
        Ok(number)
    } else {
        Err(number)
    }
}

/// The format numbers of the channels of a set from a frame with a sound header.
fn read_numbers(dir: Dir, side: &Side, on: bool, set: u8, frame: &[u8]) -> Result<[u8; 8], IubError>
    requires side { IsSide side.now }
    requires sound { IsSound side.now set frame.now }
    ensures read { IfOk result (AreRead side.now set frame.now) }
    ensures refused { IfErr result (IsFault dir side.now on set frame.now) }
{
    let mut numbers = [0; 8];
    let mut at = 2;
    for i in 0..side.channels.len() {
        match read_number(side, set, i, frame, at) {
            Ok(number) => numbers[i] = number,
            Err(number) => return Err(IubError::Format(number)),
        }
        at += member(side, set, i);
    }
    Ok(numbers)
}

/// Tests a frame of a set, and answers the format numbers of the set's channels (TS 25.427 6.2 and 7.2).
pub fn judge(dir: Dir, side: &Side, on: bool, set: u8, frame: &[u8]) -> Result<[u8; 8], IubError>
    requires { IsSide side.now }
    ensures { Judges dir side.now on set frame.now result }
{
    judge_header(dir, side, on, set, frame)?;
    let numbers = read_numbers(dir, side, on, set, frame)?;
    let shape = shape_of(side, set, &numbers);
    let end = shape.header + shape.octets + tail_octets(dir, shape.marks);
    if frame.len() != end + check_octets(on) {
        return Err(IubError::Length);
    }
    if on && !payload_fits(frame, shape.header, end) {
        return Err(IubError::PayloadCheck);
    }
    Ok(numbers)
}
