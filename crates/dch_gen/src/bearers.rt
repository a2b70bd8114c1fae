ghost use Rattle.std.specs.Prelude.{◌≡◌, IfOk};
ghost use Rattle.dch_gen.specs.Bearers.{speech, reports, dialogue, packets, gen_bearers};

use dch_bits::NoMemory;
use dch_types::{AmRules, Bearer, Mode, Sequence};
use std::alloc::Global;

/// The six bearers, each of which goes up and down on channels of one number.
#[tactic(auto, unfolding(crate::specs::Bearers::gen_bearers))]
pub(crate) fn gen_bearers(alloc: Global) -> Result<Sequence<Bearer>, NoMemory>
    ensures { IfOk result (λ bearers. bearers ≡ gen_bearers) }
{
    let bearers = [
        speech(0),
        speech(1),
        speech(2),
        reports(),
        dialogue(),
        packets(),
    ];
    Ok(Sequence::from(Vec::from_slice(alloc, &bearers)?))
}

/// A class of speech.
fn speech(channel: u8) -> Bearer
    ensures { result ≡ speech channel }
{
    Bearer {
        mode: Mode::Tm,
        up: Some(channel),
        down: Some(channel),
        logical: 0,
        priority: 2,
        buffer: 8,
        rules: AmRules::standard(),
    }
}

/// Signalling that nobody acknowledges, as measurement reports.
fn reports() -> Bearer
    ensures { result ≡ reports }
{
    Bearer {
        mode: Mode::Um,
        up: Some(3),
        down: Some(3),
        logical: 1,
        priority: 1,
        buffer: 64,
        rules: AmRules::standard(),
    }
}

/// Signalling that is acknowledged.
fn dialogue() -> Bearer
    ensures { result ≡ dialogue }
{
    Bearer {
        mode: Mode::Am,
        up: Some(3),
        down: Some(3),
        logical: 2,
        priority: 1,
        buffer: 64,
        rules: AmRules {
            poll_timer: 20,
            ..AmRules::standard()
        },
    }
}

/// Packet data, the last to be served.
fn packets() -> Bearer
    ensures { result ≡ packets }
{
    Bearer {
        mode: Mode::Am,
        up: Some(4),
        down: Some(4),
        logical: 0,
        priority: 3,
        buffer: 1024,
        rules: AmRules {
            window: 1024,
            poll_timer: 20,
            poll_pdus: 64,
            ..AmRules::standard()
        },
    }
}
