ghost use Rattle.std.specs.Prelude.{◌↔◌, All, IsTrue, length};
ghost use Rattle.dch_reset.specs.Running.{IsInside};

use crate::setup::ResetEvent;

/// The units that are offered are parts of `octets`.
pub fn are_inside(octets: &[u8], events: &[ResetEvent]) -> bool
    ensures { IsTrue result ↔ All (IsInside octets.now) events.now }
{
    events.iter().all(|event| is_inside(octets, event))
}

fn is_inside(octets: &[u8], event: &ResetEvent) -> bool
    ensures { IsTrue result ↔ IsInside octets.now event.now }
{
    match *event {
        ResetEvent::Offer { from, len, .. } => from <= octets.len() && len <= octets.len() - from,
        ResetEvent::Build { .. } => true,
        ResetEvent::Arrive { .. } => true,
        ResetEvent::Lose { .. } => true,
        ResetEvent::Tick { .. } => true,
        ResetEvent::Reset { .. } => true,
    }
}
