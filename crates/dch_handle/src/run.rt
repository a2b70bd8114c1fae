// What nodes of all kinds behind a handle have in common.
ghost use Rattle.std.specs.Prelude.{◌≡◌, [], IfOk, IfSome};
ghost use Rattle.dch_accept.specs.Reports.{step_bytes};
ghost use Rattle.dch_handle.specs.Runs.{frames_after, is_due, is_of_bits, sends_bits, sends_octets};
ghost use Rattle.dch_handle.specs.Telling.{HasRoomFor};

use crate::queue::Queue;
use dch_bits::NoMemory;
use dch_check::{Configurations, Second};
use dch_types::{Config, Dir, Mode};
use std::alloc::Global;

/// The radio frames after an event with which one passes, or none. They are counted as far as a second configuration
/// may be to come, and then by 8 around.
pub fn frames_after(passed: bool, frames: u32) -> u32
    ensures { result ≡ frames_after passed frames }
{
    if !passed {
        frames
    } else if frames < 100_008 {
        frames + 1
    } else {
        frames - 7
    }
}

/// Opens a queue with room for what a step tells in one configuration or the other.
pub fn open_queue(alloc: Global, configurations: &Configurations) -> Result<Queue, NoMemory>
    ensures empty { IfOk result (λ queue. (queue.told ≡ []) × (queue.letters ≡ [])) }
    ensures first { IfOk result (HasRoomFor (step_bytes configurations.now.first.config)) }
    ensures second { IfOk result (λ queue. IfSome configurations.now.second (λ second.
        HasRoomFor (step_bytes second.accepted.config) queue)) }
{
    let first = configurations.first.step_bytes();
    let bytes = match &configurations.second {
        Some(second) => first.max(second.accepted.step_bytes()),
        None => first,
    };
    Queue::open(alloc, bytes / 8 + 1, bytes)
}

/// Whether a second configuration is to become active after so many radio frames.
pub fn is_due(later: &Option<Second>, frames: u32) -> bool
    ensures { result ≡ is_due later.now frames }
{
    match later {
        Some(second) => second.frame == frames,
        None => false,
    }
}

/// Whether a bearer sends in a direction, and takes bits.
pub fn sends_bits(config: &Config, dir: Dir, bearer: u8) -> bool
    ensures { result ≡ sends_bits config.now dir bearer }
{
    match config.bearers.as_slice().get(usize::from(bearer)) {
        Some(bearer) => bearer.channel(dir).is_some() && is_of_bits(bearer.mode),
        None => false,
    }
}

/// Whether a bearer sends in a direction, and takes octets.
pub fn sends_octets(config: &Config, dir: Dir, bearer: u8) -> bool
    ensures { result ≡ sends_octets config.now dir bearer }
{
    match config.bearers.as_slice().get(usize::from(bearer)) {
        Some(bearer) => bearer.channel(dir).is_some() && !is_of_bits(bearer.mode),
        None => false,
    }
}

fn is_of_bits(mode: Mode) -> bool
    ensures { result ≡ is_of_bits mode }
{
    match mode {
        Mode::Tm => true,
        Mode::Um | Mode::Am => false,
    }
}
