ghost use Rattle.std.specs.Prelude.{◌↔◌, All, IsTrue, length};
ghost use Rattle.dch_pair.specs.Running.{IsInside};

use crate::setup::PairEvent;

/// The units that are offered are parts of `octets`.
pub fn are_inside(octets: &[u8], events: &[PairEvent]) -> bool
    ensures { IsTrue result ↔ All (IsInside octets.now) events.now }
{
    events.iter().all(|event| is_inside(octets, event))
}

fn is_inside(octets: &[u8], event: &PairEvent) -> bool
    ensures { IsTrue result ↔ IsInside octets.now event.now }
{
    match *event {
        PairEvent::Offer { from, len, .. } => from <= octets.len() && len <= octets.len() - from,
        PairEvent::Build { .. } => true,
        PairEvent::Tick { .. } => true,
    }
}
