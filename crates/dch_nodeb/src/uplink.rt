ghost use Rattle.std.specs.Prelude.{◌≡◌, ◌<◌, ℕ, None, true};
ghost use Rattle.dch_types.specs.declared.channel.Dir.TheVariants.{Up};
ghost use Rattle.dch_types.specs.Timing.{ends, set_frames, started};
ghost use Rattle.dch_tti.specs.RxFrames.{HasTfci};
ghost use Rattle.dch_txframes.specs.Opened.{AreTxBuffersOf, IsTxBufferOf};
ghost use Rattle.dch_txframes.specs.Lending.{radio_of};
ghost use Rattle.dch_txframes.specs.Values.{tx_buffer_at};
ghost use Rattle.dch_nodeb.specs.Moves.{Receives, Delivered};
ghost use Rattle.dch_nodeb.specs.Opened.{IsReceiverOf};

use crate::receiver::UplinkReceiver;
use dch_accept::{Accepted, FrameView};
use dch_indication::Indications;
use dch_txframes::{IubTxBuffer, tell_bad_tti};
use dch_types::{Dir, SETS, ends, started};

/// Reads the TTIs of a set, which the last radio frame ends, and sends their blocks in an Iub frame with the CFN at
/// which the TTI started (TS 25.427 6.2). Where a channel can't be read, that is told, and no frame is sent.
fn send_set<U: Indications>(
    accepted: &Accepted,
    set: u8,
    start: u8,
    receiver: &mut UplinkReceiver,
    tx_buffer: &mut IubTxBuffer,
    user: &mut U,
)
    requires receiver { IsReceiverOf accepted.now receiver.old }
    requires tx_buffer { IsTxBufferOf accepted.now Up set tx_buffer.old }
    requires quiet { tx_buffer.old.sent ≡ None }
    requires over { ends (set_frames accepted.now.config.uplink.side set) receiver.old.rx_frames.cfn ≡ true }
    requires start { start ≡ started (set_frames accepted.now.config.uplink.side set) receiver.old.rx_frames.cfn }
    ensures { Delivered U.shows accepted.now receiver.old.rx_frames set tx_buffer.new receiver.new user.old user.new }
{
    match receiver.read_set(accepted, set, tx_buffer.blocks_mut()) {
        Ok(()) => tx_buffer.send(accepted, Dir::Up, set, start, user),
        Err(bad) => tell_bad_tti(user, Dir::Up, bad.channel, bad.frame),
    }
}

/// Serves a set: where its TTI ends with the radio frame of the CFN, its Iub frame is sent.
fn deliver_set<U: Indications>(
    accepted: &Accepted,
    set: u8,
    cfn: u8,
    receiver: &mut UplinkReceiver,
    tx_buffer: &mut IubTxBuffer,
    user: &mut U,
)
    requires last { receiver.old.rx_frames.cfn ≡ cfn }
    requires receiver { IsReceiverOf accepted.now receiver.old }
    requires tx_buffer { IsTxBufferOf accepted.now Up set tx_buffer.old }
    requires quiet { tx_buffer.old.sent ≡ None }
    ensures { Delivered U.shows accepted.now receiver.old.rx_frames set tx_buffer.new receiver.new user.old user.new }
{
    let frames = accepted.side(Dir::Up).set_frames(set);
    if ends(frames, cfn) {
        send_set(
            accepted,
            set,
            started(frames, cfn),
            receiver,
            tx_buffer,
            user,
        );
    }
}

/// Takes the uplink radio frame of a CFN, or that it is missing, and sends the Iub frames of the sets whose TTI ends
/// with it.
pub fn receive<U: Indications>(
    accepted: &Accepted,
    cfn: u8,
    frame: Option<FrameView<'_>>,
    receiver: &mut UplinkReceiver,
    tx_buffers: &mut [IubTxBuffer],
    user: &mut U,
)
    requires receiver { IsReceiverOf accepted.now receiver.old }
    requires tx_buffers { AreTxBuffersOf accepted.now Up tx_buffers.old }
    requires quiet { (s : ℕ) → s < 8 → (tx_buffer_at tx_buffers.old s).sent ≡ None }
    requires tfci { HasTfci accepted.now Up frame }
    ensures { Receives U.shows accepted.now cfn (radio_of frame.entry)
        receiver.old.rx_frames tx_buffers.new receiver.new user.old user.new }
{
    receiver.push(accepted, cfn, frame);
    for set in 0..SETS {
        deliver_set(
            accepted,
            set,
            cfn,
            receiver,
            &mut tx_buffers[set as usize],
            user,
        );
    }
}
