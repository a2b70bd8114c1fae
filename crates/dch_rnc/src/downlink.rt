ghost use Rattle.std.specs.Prelude.{◌≡◌, ◌<◌, ℕ, None};
ghost use Rattle.dch_types.specs.declared.channel.Dir.TheVariants.{Down};
ghost use Rattle.dch_accept.specs.HeldSets.{IsSetOf};
ghost use Rattle.dch_layer2.specs.Standing.{IsLayerOf};
ghost use Rattle.dch_rnc.specs.Moves.{AreFilled, AreServed, Serves};
ghost use Rattle.dch_txframes.specs.Opened.{AreTxBuffersOf, IsTxBufferOf};
ghost use Rattle.dch_txframes.specs.Sending.{sent_of};

use dch_accept::{Accepted, SetBlocks};
use dch_indication::Indications;
use dch_layer2::Layer2;
use dch_txframes::IubTxBuffer;
use dch_types::{Dir, SETS, starts};

/// Takes what layer 2 gave to the channels of a set.
fn fill(accepted: &Accepted, set: u8, layer: &Layer2, blocks: &mut SetBlocks)
    requires blocks { IsSetOf accepted.now.config Down set blocks.old }
    requires layer { IsLayerOf accepted.now.config layer.now }
    requires sends { layer.now.out ≡ Down }
    ensures blocks { IsSetOf accepted.now.config Down set blocks.new }
    ensures filled { AreFilled accepted.now.config set layer.now blocks.new }
{
    let side = accepted.side(Dir::Down);
    for i in 0..side.channels.len() {
        if side.channel(i).set == set {
            blocks.add(i as u8, layer.given(i as u8));
        }
    }
}

/// Serves a set: where its TTI starts at the CFN, what layer 2 gave to its channels is sent in an Iub frame (TS 25.427
/// 6.2).
fn send_set<U: Indications>(
    accepted: &Accepted,
    set: u8,
    cfn: u8,
    layer: &Layer2,
    tx_buffer: &mut IubTxBuffer,
    user: &mut U,
)
    requires tx_buffer { IsTxBufferOf accepted.now Down set tx_buffer.old }
    requires quiet { tx_buffer.old.sent ≡ None }
    requires layer { IsLayerOf accepted.now.config layer.now }
    requires sends { layer.now.out ≡ Down }
    ensures { Serves U.shows accepted.now cfn layer.now set tx_buffer.new user.old user.new }
{
    let frames = accepted.side(Dir::Down).set_frames(set);
    if starts(frames, cfn) {
        fill(accepted, set, layer, tx_buffer.blocks_mut());
        tx_buffer.send(accepted, Dir::Down, set, cfn, user);
    }
}

/// Sends the Iub frames of the sets whose TTI starts at a CFN.
pub fn send_sets<U: Indications>(
    accepted: &Accepted,
    cfn: u8,
    layer: &Layer2,
    tx_buffers: &mut [IubTxBuffer],
    user: &mut U,
)
    requires tx_buffers { AreTxBuffersOf accepted.now Down tx_buffers.old }
    requires quiet { (s : ℕ) → s < 8 → sent_of tx_buffers.old s ≡ None }
    requires layer { IsLayerOf accepted.now.config layer.now }
    requires sends { layer.now.out ≡ Down }
    ensures { AreServed U.shows accepted.now cfn layer.now 8 tx_buffers.new user.old user.new }
{
    for set in 0..SETS {
        send_set(
            accepted,
            set,
            cfn,
            layer,
            &mut tx_buffers[set as usize],
            user,
        );
    }
}
