ghost use Rattle.std.specs.Prelude.{IfOk, IfSome};
ghost use Rattle.dch_types.specs.Limits.{IsUplink, IsDownlink};
ghost use Rattle.dch_config.specs.Good.{IsGood};
ghost use Rattle.dch_frame.specs.Patterns.{IsWellFormed};

use crate::texts::{hundred_side, packets_side, reference_side, speech_side, tiny_side};
use dch_bits::NoMemory;
use dch_config::read;
use dch_frame::{Kind, Pattern, UplinkPlan, Walk, downlink, frame, keeps, kept, origin, uplink};
use dch_types::{Config, Downlink, Uplink};
use std::alloc::{AllocError, Global};

/// The start of the error counter.
fn e_ini(kind: &Kind) -> u64 {
    match kind {
        Kind::Same => 0,
        Kind::Repeat(steps) => steps.e_ini,
        Kind::Puncture(steps) => steps.e_ini,
    }
}

/// Whether a combination has this frame size and these amounts.
fn are_amounts(
    config: &Uplink,
    combination: u16,
    ndata: u32,
    before: [u32; 8],
    sent: [u32; 8],
) -> bool
    requires { IsUplink config.now }
{
    if combination as usize >= config.side.combinations.len() {
        return false;
    }
    match uplink(config, combination) {
        Ok(plan) => {
            plan == UplinkPlan {
                ndata,
                before,
                sent,
            }
        }
        Err(_) => false,
    }
}

/// Whether the error counter starts at these numbers in the frames of a channel.
fn are_starts(config: &Uplink, combination: u16, channel: u8, starts: &[u64]) -> bool
    requires { IsUplink config.now }
{
    let (c, i) = (combination as usize, channel as usize);
    if c >= config.side.combinations.len() || i >= config.side.channels.len() {
        return false;
    }
    let Ok(plan) = uplink(config, combination) else {
        return false;
    };
    let frames = config.side.channel(i).frames;
    for n in 0..frames {
        let pattern = frame(config, combination, &plan, channel, n);
        if starts.get(n as usize).copied() != Some(e_ini(&pattern.kind)) {
            return false;
        }
    }
    starts.len() == frames as usize
}

/// The amounts of at most five channels. An array of eight numbers, written out, would be dear to prove.
fn amounts(a: u32, b: u32, c: u32, d: u32, e: u32) -> [u32; 8] {
    let mut amounts = [0; 8];
    amounts[0] = a;
    amounts[1] = b;
    amounts[2] = c;
    amounts[3] = d;
    amounts[4] = e;
    amounts
}

/// Whether the TTI of each channel, in a format, has so many coded bits.
fn are_coded(config: &Uplink, coded: &[(usize, u64)]) -> bool
    requires { IsUplink config.now }
{
    let count = config.side.channels.len();
    for i in 0..count {
        let Some((format, wanted)) = coded.get(i).copied() else {
            return false;
        };
        let channel = config.side.channel(i);
        match channel.formats.as_slice().get(format) {
            Some(format) if channel.tti_bits(format) == wanted => {}
            _ => return false,
        }
    }
    coded.len() == count
}

fn reference_uplink(config: &Uplink) -> bool
    requires { IsUplink config.now }
{
    let (before, sent) = (amounts(402, 90, 0, 0, 0), amounts(490, 110, 0, 0, 0));
    are_amounts(config, 2, 600, before, sent) && are_starts(config, 2, 0, &[1, 353])
}

fn speech_uplink(config: &Uplink) -> bool
    requires { IsUplink config.now }
{
    let before = amounts(152, 167, 68, 129, 0);
    let sent = amounts(180, 187, 95, 138, 0);
    are_coded(config, &[(2, 303), (1, 333), (1, 136), (1, 516)])
        && are_amounts(config, 5, 600, before, sent)
        && are_starts(config, 3, 3, &[1, 127, 211, 43])
}

fn packets_uplink(config: &Uplink) -> bool
    requires { IsUplink config.now }
{
    let before = amounts(152, 167, 68, 129, 8604);
    let sent = amounts(238, 250, 126, 192, 8794);
    are_amounts(config, 35, 9600, before, sent)
}

/// Whether the channels have these places in a frame, each in a format.
fn are_cells(alloc: Global, config: &Downlink, cells: &[(u8, u32)]) -> Result<bool, NoMemory>
    requires { IsDownlink config.now }
{
    let plan = downlink(alloc, config)?;
    let count = config.side.channels.len();
    for i in 0..count {
        let Some((format, wanted)) = cells.get(i).copied() else {
            return Ok(false);
        };
        if format as usize >= config.side.channel(i).formats.len()
            || plan.cells(i as u8, format) != wanted
        {
            return Ok(false);
        }
    }
    Ok(cells.len() == count)
}

/// The pattern of format 1 of the first channel.
fn first_pattern(alloc: Global, config: &Downlink) -> Result<Option<Pattern>, NoMemory>
    requires { IsDownlink config.now }
    ensures { IfOk result (λ pattern. IfSome pattern IsWellFormed) }
{
    let plan = downlink(alloc, config)?;
    if config.side.channel(0).formats.len() < 2 {
        return Ok(None);
    }
    Ok(Some(plan.pattern(0, 1)))
}

/// Whether so many bits are kept, and of the first `count` these are removed.
fn are_removed(pattern: &Pattern, left: u32, count: u32, removed: &[u32]) -> bool
    requires { IsWellFormed pattern.now }
{
    for bit in 0..count {
        if bit >= pattern.len || (keeps(pattern, bit) == 0) != removed.contains(&bit) {
            return false;
        }
    }
    kept(pattern) == left
}

/// Whether each bit has so many copies.
fn are_copies(pattern: &Pattern, copies: u32) -> bool
    requires { IsWellFormed pattern.now }
{
    for bit in 0..pattern.len {
        if keeps(pattern, bit) != copies {
            return false;
        }
    }
    kept(pattern) as u64 == copies as u64 * pattern.len as u64
}

/// Whether a walk and the counted form give the same copies of each bit, and the places show the bits with copies in
/// their order.
fn is_walked(pattern: &Pattern) -> bool
    requires { IsWellFormed pattern.now }
{
    let mut walk = Walk::new(pattern);
    let mut shown = 0;
    for bit in 0..pattern.len {
        if walk.is_done() {
            return false;
        }
        let copies = walk.next();
        if copies != keeps(pattern, bit) {
            return false;
        }
        for _ in 0..copies {
            if shown >= kept(pattern) || origin(pattern, shown) != bit {
                return false;
            }
            shown += 1;
        }
    }
    walk.is_done() && shown == kept(pattern)
}

fn reference_downlink(alloc: Global, config: &Downlink) -> Result<bool, NoMemory>
    requires { IsDownlink config.now }
{
    if !are_cells(alloc, config, &[(1, 343), (1, 77)])? {
        return Ok(false);
    }
    let Some(pattern) = first_pattern(alloc, config)? else {
        return Ok(false);
    };
    Ok(
        pattern.len == 804
            && are_removed(&pattern, 804 - 118, 14, &[0, 6, 13])
            && is_walked(&pattern),
    )
}

/// Of the 100 bits of the one channel each tenth is removed, from the first on.
fn tenth_removed(alloc: Global, config: &Downlink) -> Result<bool, NoMemory>
    requires { IsDownlink config.now }
{
    let Some(pattern) = first_pattern(alloc, config)? else {
        return Ok(false);
    };
    let removed = [0, 10, 20, 30, 40, 50, 60, 70, 80, 90];
    Ok(pattern.len == 100 && are_removed(&pattern, 90, 100, &removed))
}

fn speech_downlink(alloc: Global, config: &Downlink) -> Result<bool, NoMemory>
    requires { IsDownlink config.now }
{
    are_cells(alloc, config, &[(1, 152), (1, 160), (1, 80), (1, 118)])
}

/// The last combination would have 153, 160, 81 and 118 places of 510.
fn lowered_speech(alloc: Global, config: &Downlink) -> Result<bool, NoMemory>
    requires { IsDownlink config.now }
{
    Ok(
        are_cells(alloc, config, &[(2, 152), (1, 160), (1, 80), (1, 118)])?
            && are_cells(alloc, config, &[(1, 90), (0, 0), (0, 0), (0, 0)])?,
    )
}

fn packets_downlink(alloc: Global, config: &Downlink) -> Result<bool, NoMemory>
    requires { IsDownlink config.now }
{
    are_cells(
        alloc,
        config,
        &[(1, 226), (1, 236), (1, 119), (1, 184), (1, 8355)],
    )
}

/// The last combination would have 227, 237, 120, 184 and 8355 places of 9120.
fn lowered_packets(alloc: Global, config: &Downlink) -> Result<bool, NoMemory>
    requires { IsDownlink config.now }
{
    let greatest = [(2, 226), (1, 236), (1, 119), (1, 184), (5, 8355)];
    let other = [(1, 133), (0, 0), (0, 0), (0, 0), (3, 2785)];
    Ok(are_cells(alloc, config, &greatest)? && are_cells(alloc, config, &other)?)
}

/// Whether each of the 150 bits of the one channel has so many copies.
fn are_repeated(alloc: Global, config: &Downlink, copies: u32) -> Result<bool, NoMemory>
    requires { IsDownlink config.now }
{
    let Some(pattern) = first_pattern(alloc, config)? else {
        return Ok(false);
    };
    Ok(pattern.len == 150 && are_copies(&pattern, copies) && is_walked(&pattern))
}

/// A configuration of which both directions have the same channels.
#[derive(Clone, Copy)]
enum Sample {
    Reference,
    Speech,
    FlexibleSpeech,
    Packets,
    FlexiblePackets,
    ThreeCodes,
    OneCode,
    Hundred,
}

/// In the uplink of three codes nothing is to be sent. The uplink at flexible positions is that at fixed ones.
fn uplink_is_right(sample: Sample, config: &Uplink) -> bool
    requires { IsUplink config.now }
{
    match sample {
        Sample::Reference => reference_uplink(config),
        Sample::Speech => speech_uplink(config),
        Sample::Packets => packets_uplink(config),
        Sample::ThreeCodes => are_amounts(config, 0, 0, [0; 8], [0; 8]),
        _ => true,
    }
}

fn downlink_is_right(alloc: Global, sample: Sample, config: &Downlink) -> Result<bool, NoMemory>
    requires { IsDownlink config.now }
{
    match sample {
        Sample::Reference => reference_downlink(alloc, config),
        Sample::Speech => speech_downlink(alloc, config),
        Sample::FlexibleSpeech => lowered_speech(alloc, config),
        Sample::Packets => packets_downlink(alloc, config),
        Sample::FlexiblePackets => lowered_packets(alloc, config),
        Sample::ThreeCodes => are_repeated(alloc, config, 3),
        Sample::OneCode => are_repeated(alloc, config, 1),
        Sample::Hundred => tenth_removed(alloc, config),
    }
}

/// The greatest uplink frame, the channels of both directions, and the bits of a slot, the codes and the positions of
/// the downlink.
fn parts(sample: Sample) -> (u16, &'static str, u16, u8, &'static str) {
    match sample {
        Sample::Reference => (600, reference_side(), 28, 1, "fixed"),
        Sample::Speech => (600, speech_side(), 34, 1, "fixed"),
        Sample::FlexibleSpeech => (600, speech_side(), 34, 1, "flexible"),
        Sample::Packets => (9600, packets_side(), 608, 1, "fixed"),
        Sample::FlexiblePackets => (9600, packets_side(), 608, 1, "flexible"),
        Sample::ThreeCodes => (150, tiny_side(), 10, 3, "fixed"),
        Sample::OneCode => (150, tiny_side(), 10, 1, "flexible"),
        Sample::Hundred => (150, hundred_side(), 6, 1, "fixed"),
    }
}

fn text(alloc: Global, sample: Sample) -> Result<String, AllocError> {
    let (largest, side, slot_bits, codes, positions) = parts(sample);
    format!(in alloc;
        "[iub]\npayload_check = false\nqe = 0\n[uplink]\nlargest = {largest}\npl = 100\n{side}
[downlink]\nslot_bits = {slot_bits}\ncodes = {codes}\nsf = 8\npositions = \"{positions}\"\n{side}"
    )
}

/// Whether the amounts and patterns of a configuration are those of its tables.
fn is_right(alloc: Global, sample: Sample, config: &Config) -> bool
    requires { IsGood config.now }
{
    uplink_is_right(sample, &config.uplink)
        && matches!(downlink_is_right(alloc, sample, &config.downlink), Ok(true))
}

/// Whether a text is a configuration, and that is right. No error is answered while it is held, which would be dear to
/// prove.
fn reads(alloc: Global, sample: Sample, text: &str) -> bool {
    match read(alloc, text.as_bytes()) {
        Ok(config) => is_right(alloc, sample, &config),
        Err(_) => false,
    }
}

fn is_sample_right(alloc: Global, sample: Sample) -> bool {
    match text(alloc, sample) {
        Ok(text) => reads(alloc, sample, &text),
        Err(_) => false,
    }
}

#[test]
fn amounts_and_patterns(rt: HostRuntime) {
    for sample in [
        Sample::Reference,
        Sample::Speech,
        Sample::FlexibleSpeech,
        Sample::Packets,
        Sample::FlexiblePackets,
        Sample::ThreeCodes,
        Sample::OneCode,
        Sample::Hundred,
    ] {
        assert!(rt; is_sample_right(rt.alloc(), sample));
    }
}
