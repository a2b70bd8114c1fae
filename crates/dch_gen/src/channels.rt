ghost use Rattle.std.specs.Prelude.{◌≡◌, IfOk};
ghost use Rattle.dch_gen.specs.Channels.{class_a, class_b, class_c, signalling, packets, format, gen_channels};

use dch_bits::NoMemory;
use dch_types::{Coding, Crc, Format, Sequence, Trch};
use std::alloc::Global;

/// The five channels of a direction.
#[tactic(auto, unfolding(crate::specs::Channels::gen_channels))]
pub(crate) fn gen_channels(alloc: Global) -> Result<Sequence<Trch>, NoMemory>
    ensures { IfOk result (λ channels. channels ≡ gen_channels) }
{
    let mut channels = Sequence::new(alloc);
    channels.push(class_a(alloc)?)?;
    channels.push(class_b(alloc)?)?;
    channels.push(class_c(alloc)?)?;
    channels.push(signalling(alloc)?)?;
    channels.push(packets(alloc)?)?;
    Ok(channels)
}

/// The most important bits of speech: none, those of a frame that describes silence, or those of a frame of speech.
fn class_a(alloc: Global) -> Result<Trch, NoMemory>
    ensures { IfOk result (λ channel. channel ≡ class_a) }
{
    let formats = formats(alloc, &[format(0, 0), format(1, 39), format(1, 81)])?;
    Ok(Trch {
        frames: 2,
        coding: Coding::Third,
        crc: Crc::C12,
        rm: 200,
        set: 0,
        formats,
    })
}

/// The bits of speech of the second class.
fn class_b(alloc: Global) -> Result<Trch, NoMemory>
    ensures { IfOk result (λ channel. channel ≡ class_b) }
{
    let formats = formats(alloc, &[format(0, 0), format(1, 103)])?;
    Ok(Trch {
        frames: 2,
        coding: Coding::Third,
        crc: Crc::C0,
        rm: 190,
        set: 0,
        formats,
    })
}

/// The bits of speech of the third class.
fn class_c(alloc: Global) -> Result<Trch, NoMemory>
    ensures { IfOk result (λ channel. channel ≡ class_c) }
{
    let formats = formats(alloc, &[format(0, 0), format(1, 60)])?;
    Ok(Trch {
        frames: 2,
        coding: Coding::Half,
        crc: Crc::C0,
        rm: 235,
        set: 0,
        formats,
    })
}

/// The PDUs of two signalling bearers.
fn signalling(alloc: Global) -> Result<Trch, NoMemory>
    ensures { IfOk result (λ channel. channel ≡ signalling) }
{
    let formats = formats(alloc, &[format(0, 0), format(1, 148)])?;
    Ok(Trch {
        frames: 4,
        coding: Coding::Third,
        crc: Crc::C16,
        rm: 190,
        set: 1,
        formats,
    })
}

/// Packet data, up to 12 PDUs in a radio frame.
fn packets(alloc: Global) -> Result<Trch, NoMemory>
    ensures { IfOk result (λ channel. channel ≡ packets) }
{
    let formats = formats(
        alloc,
        &[
            format(0, 0),
            format(1, 336),
            format(2, 336),
            format(4, 336),
            format(8, 336),
            format(12, 336),
        ],
    )?;
    Ok(Trch {
        frames: 1,
        coding: Coding::Half,
        crc: Crc::C16,
        rm: 130,
        set: 2,
        formats,
    })
}

fn formats(alloc: Global, formats: &[Format]) -> Result<Sequence<Format>, NoMemory>
    ensures { IfOk result (λ list. list ≡ formats.now) }
{
    Ok(Sequence::from(Vec::from_slice(alloc, formats)?))
}

/// A format of so many blocks of so many bits each.
fn format(number: u16, size: u16) -> Format
    ensures { result ≡ format number size }
{
    Format { number, size }
}
