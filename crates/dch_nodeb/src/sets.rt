ghost use Rattle.std.specs.Prelude.{◌≡◌, ◌<◌, true};
ghost use Rattle.dch_types.specs.Timing.{has_set};

use dch_accept::Accepted;
use dch_types::Dir;

/// The receive buffer of a set that the downlink has.
pub fn rx_buffer_of(accepted: &Accepted, set: u8) -> usize
    requires { has_set accepted.now.config.downlink.side set ≡ true }
    ensures value { result ≡ set }
    ensures inside { result < 8 }
{
    // A set's number is at most 7 in a good configuration.
    let _few = accepted.side(Dir::Down).has_set(set);
    set as usize
}
