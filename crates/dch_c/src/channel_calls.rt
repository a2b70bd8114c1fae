//! The calls on transport channels: the blocks of a TTI to the radio frames that carry them, and back (TS 25.212 4.2).
ghost use Rattle.std.specs.Prelude.{◌≡◌, ◌<◌, ◌≤◌, ◌⊎◌, None, Some, false, length, true};
ghost use Rattle.dch_types.specs.declared.channel.Dir.{Dir as TheDir};
ghost use Rattle.dch_types.specs.Parts.{side_of};
ghost use Rattle.dch_tti.specs.Formats.{IsBadFrame};
ghost use Rattle.dch_handle.specs.ChannelCalls.{AreLoadedFor, IsFormatTold, IsLongAs, IsReadInto, IsReadPast, IsWritten, Loads, Takes, TakesText, has_format, load_status, take_status};
ghost use Rattle.dch_handle.specs.Channels.{Trchs, heard_in};
ghost use Rattle.dch_handle.specs.Codes.{bits_of, dir_of};
ghost use Rattle.dch_c.specs.HeldChannels.{HoldsChannels};
ghost use Rattle.dch_c.specs.Kinds.{are_channels};
ghost use Rattle.dch_handle.specs.declared.held.Held.{Held as TheHeld};
ghost use Rattle.dch_handle.specs.declared.held.Held.TheVariants.{Channels as HeldChannels};
ghost use Rattle.dch_handle.specs.Statuses.{IsRefused, bad_code, bad_size, bad_tti, closed, done, not_loaded, other_kind, short};

use dch_handle::{
    BAD_CODE, CLOSED, Channels, DONE, Handle, Held, OTHER_KIND, Tti, TtiFormat, dir_of, put, take,
};
use std::alloc::Global;

/// How many TFCI bits and cells a radio frame of a combination has.
#[unsafe(no_mangle)]
pub extern "C" fn dch_channels_frame_size(
    alloc: Global,
    handle: &mut Handle,
    direction: u8,
    combination: u16,
    tfci_len: &mut usize,
    cells_len: &mut usize,
) -> u8
    ensures closed { handle.old.raw.value ≡ None → result ≡ closed }
    ensures other { (held : TheHeld) → handle.old.raw.value ≡ Some held → are_channels held ≡ false → result ≡
        other_kind }
    ensures direction { (channels : Trchs) → handle.old.raw.value ≡ Some (HeldChannels channels) →
        dir_of direction ≡ None → result ≡ bad_code }
    ensures code { (channels : Trchs) (dir : TheDir) → handle.old.raw.value ≡ Some (HeldChannels channels) →
        dir_of direction ≡ Some dir → length (side_of channels.planned.config dir).combinations ≤ combination →
        result ≡ bad_code }
    ensures told { (channels : Trchs) (dir : TheDir) → handle.old.raw.value ≡ Some (HeldChannels channels) →
        dir_of direction ≡ Some dir → combination < length (side_of channels.planned.config dir).combinations →
        (result ≡ done) × IsLongAs channels.planned dir combination tfci_len.new cells_len.new }
    ensures same { IsRefused result → (tfci_len.new ≡ tfci_len.old) × (cells_len.new ≡ cells_len.old) }
    ensures kept { handle.new.raw.value ≡ handle.old.raw.value }
{
    let Some(held) = take(alloc, handle) else {
        return CLOSED;
    };
    let status = match &*held {
        Held::Channels(channels) => {
            frame_size(channels, direction, combination, tfci_len, cells_len)
        }
        Held::Decoder(_) | Held::Rnc(_) | Held::Ue(_) | Held::NodeB(_) => OTHER_KIND,
    };
    put(handle, held);
    status
}

fn frame_size(
    channels: &Channels,
    direction: u8,
    combination: u16,
    tfci_len: &mut usize,
    cells_len: &mut usize,
) -> u8
    ensures direction { dir_of direction ≡ None → result ≡ bad_code }
    ensures code { (dir : TheDir) → dir_of direction ≡ Some dir →
        length (side_of channels.now.planned.config dir).combinations ≤ combination → result ≡ bad_code }
    ensures told { (dir : TheDir) → dir_of direction ≡ Some dir →
        combination < length (side_of channels.now.planned.config dir).combinations →
        (result ≡ done) × IsLongAs channels.now.planned dir combination tfci_len.new cells_len.new }
    ensures same { IsRefused result → (tfci_len.new ≡ tfci_len.old) × (cells_len.new ≡ cells_len.old) }
{
    let Some(dir) = dir_of(direction) else {
        return BAD_CODE;
    };
    let Some((bits, cells)) = channels.frame_size(dir, combination) else {
        return BAD_CODE;
    };
    *tfci_len = bits;
    *cells_len = cells;
    DONE
}

/// The radio frames of a TTI of a channel, and in a format its blocks and their bits.
#[unsafe(no_mangle)]
pub extern "C" fn dch_channels_format(
    alloc: Global,
    handle: &mut Handle,
    direction: u8,
    channel: u8,
    format: u8,
    told: &mut TtiFormat,
) -> u8
    ensures closed { handle.old.raw.value ≡ None → result ≡ closed }
    ensures other { (held : TheHeld) → handle.old.raw.value ≡ Some held → are_channels held ≡ false → result ≡
        other_kind }
    ensures direction { (channels : Trchs) → handle.old.raw.value ≡ Some (HeldChannels channels) →
        dir_of direction ≡ None → result ≡ bad_code }
    ensures code { (channels : Trchs) (dir : TheDir) → handle.old.raw.value ≡ Some (HeldChannels channels) →
        dir_of direction ≡ Some dir → has_format channels.planned dir channel format ≡ false → result ≡ bad_code }
    ensures told { (channels : Trchs) (dir : TheDir) → handle.old.raw.value ≡ Some (HeldChannels channels) →
        dir_of direction ≡ Some dir → has_format channels.planned dir channel format ≡ true →
        (result ≡ done) × IsFormatTold channels.planned dir channel format told.new }
    ensures same { IsRefused result → told.new ≡ told.old }
    ensures kept { handle.new.raw.value ≡ handle.old.raw.value }
{
    let Some(held) = take(alloc, handle) else {
        return CLOSED;
    };
    let status = match &*held {
        Held::Channels(channels) => tell_format(channels, direction, channel, format, told),
        Held::Decoder(_) | Held::Rnc(_) | Held::Ue(_) | Held::NodeB(_) => OTHER_KIND,
    };
    put(handle, held);
    status
}

fn tell_format(
    channels: &Channels,
    direction: u8,
    channel: u8,
    format: u8,
    told: &mut TtiFormat,
) -> u8
    ensures direction { dir_of direction ≡ None → result ≡ bad_code }
    ensures code { (dir : TheDir) → dir_of direction ≡ Some dir →
        has_format channels.now.planned dir channel format ≡ false → result ≡ bad_code }
    ensures told { (dir : TheDir) → dir_of direction ≡ Some dir →
        has_format channels.now.planned dir channel format ≡ true →
        (result ≡ done) × IsFormatTold channels.now.planned dir channel format told.new }
    ensures same { IsRefused result → told.new ≡ told.old }
{
    let Some(dir) = dir_of(direction) else {
        return BAD_CODE;
    };
    let Some(it) = channels.format(dir, channel, format) else {
        return BAD_CODE;
    };
    *told = it;
    DONE
}

/// Loads the blocks of a channel for its next TTI, one block after another (TS 25.212 4.2.1 to 4.2.5).
#[unsafe(no_mangle)]
pub extern "C" fn dch_channels_load(
    alloc: Global,
    handle: &mut Handle,
    direction: u8,
    channel: u8,
    format: u8,
    blocks: &[u8],
) -> u8
    ensures closed { handle.old.raw.value ≡ None → result ≡ closed }
    ensures other { (held : TheHeld) → handle.old.raw.value ≡ Some held → are_channels held ≡ false → result ≡
        other_kind }
    ensures direction { (channels : Trchs) → handle.old.raw.value ≡ Some (HeldChannels channels) →
        dir_of direction ≡ None → result ≡ bad_code }
    ensures status { (channels : Trchs) (dir : TheDir) → handle.old.raw.value ≡ Some (HeldChannels channels) →
        dir_of direction ≡ Some dir → result ≡ load_status channels.planned dir channel format blocks.now }
    ensures done { (channels : Trchs) (dir : TheDir) → handle.old.raw.value ≡ Some (HeldChannels channels) →
        dir_of direction ≡ Some dir → result ≡ done →
        HoldsChannels (Loads dir channel format (bits_of blocks.now) channels) handle.new.raw.value }
    ensures same { IsRefused result → handle.new.raw.value ≡ handle.old.raw.value }
{
    let Some(mut held) = take(alloc, handle) else {
        return CLOSED;
    };
    let status = match &mut *held {
        Held::Channels(channels) => match dir_of(direction) {
            Some(dir) => channels.load(dir, channel, format, blocks),
            None => BAD_CODE,
        },
        Held::Decoder(_) | Held::Rnc(_) | Held::Ue(_) | Held::NodeB(_) => OTHER_KIND,
    };
    put(handle, held);
    status
}

/// Writes the radio frame of a CFN in a combination: its TFCI bits, and its cells (TS 25.212 4.2.6 to 4.2.12, 4.3.3).
#[unsafe(no_mangle)]
pub extern "C" fn dch_channels_write(
    alloc: Global,
    handle: &mut Handle,
    direction: u8,
    cfn: u8,
    combination: u16,
    tfci: &mut [u8],
    cells: &mut [u8],
) -> u8
    ensures closed { handle.old.raw.value ≡ None → result ≡ closed }
    ensures other { (held : TheHeld) → handle.old.raw.value ≡ Some held → are_channels held ≡ false → result ≡
        other_kind }
    ensures direction { (channels : Trchs) → handle.old.raw.value ≡ Some (HeldChannels channels) →
        dir_of direction ≡ None → result ≡ bad_code }
    ensures code { (channels : Trchs) (dir : TheDir) → handle.old.raw.value ≡ Some (HeldChannels channels) →
        dir_of direction ≡ Some dir → length (side_of channels.planned.config dir).combinations ≤ combination →
        result ≡ bad_code }
    ensures size { (channels : Trchs) (dir : TheDir) → handle.old.raw.value ≡ Some (HeldChannels channels) →
        dir_of direction ≡ Some dir → combination < length (side_of channels.planned.config dir).combinations →
        ¬ IsLongAs channels.planned dir combination (length tfci.old) (length cells.old) → result ≡ bad_size }
    ensures loaded { (channels : Trchs) (dir : TheDir) → handle.old.raw.value ≡ Some (HeldChannels channels) →
        dir_of direction ≡ Some dir → combination < length (side_of channels.planned.config dir).combinations →
        IsLongAs channels.planned dir combination (length tfci.old) (length cells.old) →
        ¬ AreLoadedFor channels dir combination → result ≡ not_loaded }
    ensures written { (channels : Trchs) (dir : TheDir) → handle.old.raw.value ≡ Some (HeldChannels channels) →
        dir_of direction ≡ Some dir → combination < length (side_of channels.planned.config dir).combinations →
        IsLongAs channels.planned dir combination (length tfci.old) (length cells.old) →
        AreLoadedFor channels dir combination →
        (result ≡ done) × IsWritten channels dir cfn combination tfci.new cells.new }
    ensures same { IsRefused result → (tfci.new ≡ tfci.old) × (cells.new ≡ cells.old) }
    ensures kept { handle.new.raw.value ≡ handle.old.raw.value }
{
    let Some(mut held) = take(alloc, handle) else {
        return CLOSED;
    };
    let status = match &mut *held {
        Held::Channels(channels) => match dir_of(direction) {
            Some(dir) => channels.write(dir, cfn, combination, tfci, cells),
            None => BAD_CODE,
        },
        Held::Decoder(_) | Held::Rnc(_) | Held::Ue(_) | Held::NodeB(_) => OTHER_KIND,
    };
    put(handle, held);
    status
}

/// Takes the radio frame of a CFN that was received (TS 25.212 4.3.3).
#[unsafe(no_mangle)]
pub extern "C" fn dch_channels_take(
    alloc: Global,
    handle: &mut Handle,
    direction: u8,
    cfn: u8,
    tfci: &[u8],
    cells: &[u8],
) -> u8
    ensures closed { handle.old.raw.value ≡ None → result ≡ closed }
    ensures other { (held : TheHeld) → handle.old.raw.value ≡ Some held → are_channels held ≡ false → result ≡
        other_kind }
    ensures direction { (channels : Trchs) → handle.old.raw.value ≡ Some (HeldChannels channels) →
        dir_of direction ≡ None → result ≡ bad_code }
    ensures status { (channels : Trchs) (dir : TheDir) → handle.old.raw.value ≡ Some (HeldChannels channels) →
        dir_of direction ≡ Some dir → result ≡ take_status channels.planned dir tfci.now cells.now }
    ensures done { (channels : Trchs) (dir : TheDir) → handle.old.raw.value ≡ Some (HeldChannels channels) →
        dir_of direction ≡ Some dir → result ≡ done →
        HoldsChannels (TakesText dir cfn tfci.now cells.now channels) handle.new.raw.value }
    ensures same { IsRefused result → handle.new.raw.value ≡ handle.old.raw.value }
{
    let Some(mut held) = take(alloc, handle) else {
        return CLOSED;
    };
    let status = match &mut *held {
        Held::Channels(channels) => match dir_of(direction) {
            Some(dir) => channels.take(dir, cfn, tfci, cells),
            None => BAD_CODE,
        },
        Held::Decoder(_) | Held::Rnc(_) | Held::Ue(_) | Held::NodeB(_) => OTHER_KIND,
    };
    put(handle, held);
    status
}

/// Takes that the radio frame of a CFN is missing.
#[unsafe(no_mangle)]
pub extern "C" fn dch_channels_miss(
    alloc: Global,
    handle: &mut Handle,
    direction: u8,
    cfn: u8,
) -> u8
    ensures closed { handle.old.raw.value ≡ None → result ≡ closed }
    ensures other { (held : TheHeld) → handle.old.raw.value ≡ Some held → are_channels held ≡ false → result ≡
        other_kind }
    ensures direction { (channels : Trchs) → handle.old.raw.value ≡ Some (HeldChannels channels) →
        dir_of direction ≡ None → result ≡ bad_code }
    ensures done { (channels : Trchs) (dir : TheDir) → handle.old.raw.value ≡ Some (HeldChannels channels) →
        dir_of direction ≡ Some dir → (result ≡ done) ×
        HoldsChannels (Takes dir cfn None channels) handle.new.raw.value }
    ensures same { IsRefused result → handle.new.raw.value ≡ handle.old.raw.value }
{
    let Some(mut held) = take(alloc, handle) else {
        return CLOSED;
    };
    let status = match &mut *held {
        Held::Channels(channels) => match dir_of(direction) {
            Some(dir) => {
                channels.miss(dir, cfn);
                DONE
            }
            None => BAD_CODE,
        },
        Held::Decoder(_) | Held::Rnc(_) | Held::Ue(_) | Held::NodeB(_) => OTHER_KIND,
    };
    put(handle, held);
    status
}

/// Reads the TTI of a channel that the last radio frame ends, and writes the letters and the marks of its blocks at the
/// front of two buffers (TS 25.212 4.2, read backwards).
#[unsafe(no_mangle)]
pub extern "C" fn dch_channels_read(
    alloc: Global,
    handle: &mut Handle,
    direction: u8,
    channel: u8,
    blocks: &mut [u8],
    good: &mut [u8],
    tti: &mut Tti,
) -> u8
    ensures closed { handle.old.raw.value ≡ None → (result ≡ closed) × (tti.new ≡ tti.old) }
    ensures other { (held : TheHeld) → handle.old.raw.value ≡ Some held → are_channels held ≡ false →
        (result ≡ other_kind) × (tti.new ≡ tti.old) }
    ensures direction { (channels : Trchs) → handle.old.raw.value ≡ Some (HeldChannels channels) →
        dir_of direction ≡ None → (result ≡ bad_code) × (tti.new ≡ tti.old) }
    ensures code { (channels : Trchs) (dir : TheDir) → handle.old.raw.value ≡ Some (HeldChannels channels) →
        dir_of direction ≡ Some dir → length (side_of channels.planned.config dir).channels ≤ channel →
        (result ≡ bad_code) × (tti.new ≡ tti.old) }
    ensures status { (channels : Trchs) (dir : TheDir) → handle.old.raw.value ≡ Some (HeldChannels channels) →
        dir_of direction ≡ Some dir → channel < length (side_of channels.planned.config dir).channels →
        (result ≡ done) ⊎ ((result ≡ short) ⊎ (result ≡ bad_tti)) }
    ensures done { (channels : Trchs) (dir : TheDir) → handle.old.raw.value ≡ Some (HeldChannels channels) →
        dir_of direction ≡ Some dir → result ≡ done →
        IsReadInto channels dir channel blocks.old good.old blocks.new good.new tti.new }
    ensures short { (channels : Trchs) (dir : TheDir) → handle.old.raw.value ≡ Some (HeldChannels channels) →
        dir_of direction ≡ Some dir → result ≡ short →
        IsReadPast channels dir channel blocks.old good.old tti.new }
    ensures bad { (channels : Trchs) (dir : TheDir) → handle.old.raw.value ≡ Some (HeldChannels channels) →
        dir_of direction ≡ Some dir → result ≡ bad_tti →
        IsBadFrame (side_of channels.planned.config dir) (heard_in channels dir) channel tti.new.bad_frame ×
        (tti.new ≡ record tti.old { bad_frame = tti.new.bad_frame }) }
    ensures same { IsRefused result → (blocks.new ≡ blocks.old) × (good.new ≡ good.old) }
    ensures kept { handle.new.raw.value ≡ handle.old.raw.value }
{
    let Some(mut held) = take(alloc, handle) else {
        return CLOSED;
    };
    let status = match &mut *held {
        Held::Channels(channels) => match dir_of(direction) {
            Some(dir) => channels.read(dir, channel, blocks, good, tti),
            None => BAD_CODE,
        },
        Held::Decoder(_) | Held::Rnc(_) | Held::Ue(_) | Held::NodeB(_) => OTHER_KIND,
    };
    put(handle, held);
    status
}
