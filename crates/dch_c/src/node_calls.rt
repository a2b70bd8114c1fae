//! The events of nodes, and what they tell.
ghost use Rattle.std.specs.Prelude.{◌≡◌, ◌<◌, ◌≤◌, [], None, Some, false, true, length, slice_get};
ghost use Rattle.dch_types.specs.declared.channel.Dir.TheVariants.{Down, Up};
ghost use Rattle.dch_nodeb.specs.State.{DownlinkDue, IubFrame as NodeBIub, UplinkFrame};
ghost use Rattle.dch_nodeb.specs.Values.{Node as NodeBNode};
ghost use Rattle.dch_rnc.specs.State.{BlockedCombination as RncBlock, IubFrame as RncIub, OfferedUnit as RncUnit, Tick as RncTick};
ghost use Rattle.dch_rnc.specs.Values.{Node as RncNode};
ghost use Rattle.dch_ue.specs.State.{BlockedCombination as UeBlock, DownlinkFrame, OfferedUnit as UeUnit, Tick as UeTick};
ghost use Rattle.dch_ue.specs.Values.{Node as UeNode};
ghost use Rattle.dch_handle.specs.Codes.{bits_of};
ghost use Rattle.dch_c.specs.HeldNodes.{HoldsNodeB, HoldsPulled, HoldsRnc, HoldsUe, waiting_of};
ghost use Rattle.dch_c.specs.Kinds.{is_node, is_node_b, is_rnc_or_node_b, is_rnc_or_ue, is_ue_or_node_b};
ghost use Rattle.dch_handle.specs.NodeBRules.{node_b_rules};
ghost use Rattle.dch_handle.specs.RncRules.{rnc_rules};
ghost use Rattle.dch_handle.specs.UeRules.{ue_rules};
ghost use Rattle.dch_handle.specs.Runs.{Changes, Run, Takes, block_status, change_status, if_idle, is_idle, is_on, iub_status, phy_status, radio_read, unit_bits_status, unit_status};
ghost use Rattle.dch_handle.specs.Statuses.{IsRefused, closed, done, nothing, other_kind, short};
ghost use Rattle.dch_handle.specs.declared.held.Held.{Held as TheHeld};
ghost use Rattle.dch_handle.specs.declared.held.Held.TheVariants.{NodeB as HeldNodeB, Rnc as HeldRnc, Ue as HeldUe};
ghost use Rattle.dch_handle.specs.declared.told.Told.{Told as TheTold};

use dch_handle::{CLOSED, Handle, Held, OTHER_KIND, Told, put, take};
use std::alloc::Global;

/// Offers a unit of octets to a bearer (TS 25.322).
#[unsafe(no_mangle)]
pub extern "C" fn dch_node_unit(alloc: Global, handle: &mut Handle, bearer: u8, octets: &[u8]) -> u8
    ensures closed { handle.old.raw.value ≡ None → result ≡ closed }
    ensures other { (held : TheHeld) → handle.old.raw.value ≡ Some held → is_rnc_or_ue held ≡ false → result ≡
        other_kind }
    ensures rnc { (run : Run RncNode) → handle.old.raw.value ≡ Some (HeldRnc run) →
        result ≡ unit_status run.planned run.waiting Down bearer }
    ensures rnc_done { (run : Run RncNode) → handle.old.raw.value ≡ Some (HeldRnc run) → result ≡ done →
        HoldsRnc (Takes rnc_rules (RncUnit bearer octets.now []) run) handle.new.raw.value }
    ensures ue { (run : Run UeNode) → handle.old.raw.value ≡ Some (HeldUe run) →
        result ≡ unit_status run.planned run.waiting Up bearer }
    ensures ue_done { (run : Run UeNode) → handle.old.raw.value ≡ Some (HeldUe run) → result ≡ done →
        HoldsUe (Takes ue_rules (UeUnit bearer octets.now []) run) handle.new.raw.value }
    ensures same { IsRefused result → handle.new.raw.value ≡ handle.old.raw.value }
{
    let Some(mut held) = take(alloc, handle) else {
        return CLOSED;
    };
    let status = match &mut *held {
        Held::Rnc(session) => session.unit(bearer, octets),
        Held::Ue(session) => session.unit(bearer, octets),
        Held::Decoder(_) | Held::Channels(_) | Held::NodeB(_) => OTHER_KIND,
    };
    put(handle, held);
    status
}

/// Offers a unit of bits to a transparent bearer (TS 25.322).
#[unsafe(no_mangle)]
pub extern "C" fn dch_node_unit_bits(
    alloc: Global,
    handle: &mut Handle,
    bearer: u8,
    bits: &[u8],
) -> u8
    ensures closed { handle.old.raw.value ≡ None → result ≡ closed }
    ensures other { (held : TheHeld) → handle.old.raw.value ≡ Some held → is_rnc_or_ue held ≡ false → result ≡
        other_kind }
    ensures rnc { (run : Run RncNode) → handle.old.raw.value ≡ Some (HeldRnc run) →
        result ≡ unit_bits_status run.planned run.waiting Down bearer bits.now }
    ensures rnc_done { (run : Run RncNode) → handle.old.raw.value ≡ Some (HeldRnc run) → result ≡ done →
        HoldsRnc (Takes rnc_rules (RncUnit bearer [] (bits_of bits.now)) run) handle.new.raw.value }
    ensures ue { (run : Run UeNode) → handle.old.raw.value ≡ Some (HeldUe run) →
        result ≡ unit_bits_status run.planned run.waiting Up bearer bits.now }
    ensures ue_done { (run : Run UeNode) → handle.old.raw.value ≡ Some (HeldUe run) → result ≡ done →
        HoldsUe (Takes ue_rules (UeUnit bearer [] (bits_of bits.now)) run) handle.new.raw.value }
    ensures same { IsRefused result → handle.new.raw.value ≡ handle.old.raw.value }
{
    let Some(mut held) = take(alloc, handle) else {
        return CLOSED;
    };
    let status = match &mut *held {
        Held::Rnc(session) => session.unit_bits(bearer, bits),
        Held::Ue(session) => session.unit_bits(bearer, bits),
        Held::Decoder(_) | Held::Channels(_) | Held::NodeB(_) => OTHER_KIND,
    };
    put(handle, held);
    status
}

/// Blocks a combination (1), or frees it again (0) (TS 25.321).
#[unsafe(no_mangle)]
pub extern "C" fn dch_node_block(alloc: Global, handle: &mut Handle, combination: u16, on: u8) -> u8
    ensures closed { handle.old.raw.value ≡ None → result ≡ closed }
    ensures other { (held : TheHeld) → handle.old.raw.value ≡ Some held → is_rnc_or_ue held ≡ false → result ≡
        other_kind }
    ensures rnc { (run : Run RncNode) → handle.old.raw.value ≡ Some (HeldRnc run) →
        result ≡ block_status run.planned run.waiting Down combination on }
    ensures rnc_done { (run : Run RncNode) → handle.old.raw.value ≡ Some (HeldRnc run) → result ≡ done →
        HoldsRnc (Takes rnc_rules (RncBlock combination (is_on on)) run) handle.new.raw.value }
    ensures ue { (run : Run UeNode) → handle.old.raw.value ≡ Some (HeldUe run) →
        result ≡ block_status run.planned run.waiting Up combination on }
    ensures ue_done { (run : Run UeNode) → handle.old.raw.value ≡ Some (HeldUe run) → result ≡ done →
        HoldsUe (Takes ue_rules (UeBlock combination (is_on on)) run) handle.new.raw.value }
    ensures same { IsRefused result → handle.new.raw.value ≡ handle.old.raw.value }
{
    let Some(mut held) = take(alloc, handle) else {
        return CLOSED;
    };
    let status = match &mut *held {
        Held::Rnc(session) => session.block(combination, on),
        Held::Ue(session) => session.block(combination, on),
        Held::Decoder(_) | Held::Channels(_) | Held::NodeB(_) => OTHER_KIND,
    };
    put(handle, held);
    status
}

/// Takes an Iub frame of a set that comes (TS 25.427).
#[unsafe(no_mangle)]
pub extern "C" fn dch_node_iub(alloc: Global, handle: &mut Handle, set: u8, frame: &[u8]) -> u8
    ensures closed { handle.old.raw.value ≡ None → result ≡ closed }
    ensures other { (held : TheHeld) → handle.old.raw.value ≡ Some held → is_rnc_or_node_b held ≡ false → result ≡
        other_kind }
    ensures rnc { (run : Run RncNode) → handle.old.raw.value ≡ Some (HeldRnc run) →
        result ≡ iub_status run.planned run.waiting Up set }
    ensures rnc_done { (run : Run RncNode) → handle.old.raw.value ≡ Some (HeldRnc run) → result ≡ done →
        HoldsRnc (Takes rnc_rules (RncIub set frame.now) run) handle.new.raw.value }
    ensures nodeb { (run : Run NodeBNode) → handle.old.raw.value ≡ Some (HeldNodeB run) →
        result ≡ iub_status run.planned run.waiting Down set }
    ensures nodeb_done { (run : Run NodeBNode) → handle.old.raw.value ≡ Some (HeldNodeB run) → result ≡ done →
        HoldsNodeB (Takes node_b_rules (NodeBIub set frame.now) run) handle.new.raw.value }
    ensures same { IsRefused result → handle.new.raw.value ≡ handle.old.raw.value }
{
    let Some(mut held) = take(alloc, handle) else {
        return CLOSED;
    };
    let status = match &mut *held {
        Held::Rnc(session) => session.iub(set, frame),
        Held::NodeB(session) => session.iub(set, frame),
        Held::Decoder(_) | Held::Channels(_) | Held::Ue(_) => OTHER_KIND,
    };
    put(handle, held);
    status
}

/// Takes the radio frame of the CFN that comes (TS 25.212).
#[unsafe(no_mangle)]
pub extern "C" fn dch_node_phy(alloc: Global, handle: &mut Handle, tfci: &[u8], cells: &[u8]) -> u8
    ensures closed { handle.old.raw.value ≡ None → result ≡ closed }
    ensures other { (held : TheHeld) → handle.old.raw.value ≡ Some held → is_ue_or_node_b held ≡ false → result ≡
        other_kind }
    ensures ue { (run : Run UeNode) → handle.old.raw.value ≡ Some (HeldUe run) →
        result ≡ phy_status run.planned run.waiting Down tfci.now cells.now }
    ensures ue_done { (run : Run UeNode) → handle.old.raw.value ≡ Some (HeldUe run) → result ≡ done →
        HoldsUe (Takes ue_rules (DownlinkFrame (Some (radio_read tfci.now cells.now))) run) handle.new.raw.value }
    ensures nodeb { (run : Run NodeBNode) → handle.old.raw.value ≡ Some (HeldNodeB run) →
        result ≡ phy_status run.planned run.waiting Up tfci.now cells.now }
    ensures nodeb_done { (run : Run NodeBNode) → handle.old.raw.value ≡ Some (HeldNodeB run) → result ≡ done →
        HoldsNodeB (Takes node_b_rules (UplinkFrame (Some (radio_read tfci.now cells.now))) run) handle.new.raw.value }
    ensures same { IsRefused result → handle.new.raw.value ≡ handle.old.raw.value }
{
    let Some(mut held) = take(alloc, handle) else {
        return CLOSED;
    };
    let status = match &mut *held {
        Held::Ue(session) => session.phy(tfci, cells),
        Held::NodeB(session) => session.phy(tfci, cells),
        Held::Decoder(_) | Held::Channels(_) | Held::Rnc(_) => OTHER_KIND,
    };
    put(handle, held);
    status
}

/// Takes that the radio frame of the CFN is missing.
#[unsafe(no_mangle)]
pub extern "C" fn dch_node_miss(alloc: Global, handle: &mut Handle) -> u8
    ensures closed { handle.old.raw.value ≡ None → result ≡ closed }
    ensures other { (held : TheHeld) → handle.old.raw.value ≡ Some held → is_ue_or_node_b held ≡ false → result ≡
        other_kind }
    ensures ue { (run : Run UeNode) → handle.old.raw.value ≡ Some (HeldUe run) →
        result ≡ if_idle run.waiting done }
    ensures ue_done { (run : Run UeNode) → handle.old.raw.value ≡ Some (HeldUe run) → result ≡ done →
        HoldsUe (Takes ue_rules (DownlinkFrame None) run) handle.new.raw.value }
    ensures nodeb { (run : Run NodeBNode) → handle.old.raw.value ≡ Some (HeldNodeB run) →
        result ≡ if_idle run.waiting done }
    ensures nodeb_done { (run : Run NodeBNode) → handle.old.raw.value ≡ Some (HeldNodeB run) → result ≡ done →
        HoldsNodeB (Takes node_b_rules (UplinkFrame None) run) handle.new.raw.value }
    ensures same { IsRefused result → handle.new.raw.value ≡ handle.old.raw.value }
{
    let Some(mut held) = take(alloc, handle) else {
        return CLOSED;
    };
    let status = match &mut *held {
        Held::Ue(session) => session.miss(),
        Held::NodeB(session) => session.miss(),
        Held::Decoder(_) | Held::Channels(_) | Held::Rnc(_) => OTHER_KIND,
    };
    put(handle, held);
    status
}

/// Takes that the downlink radio frame of the CFN is due.
#[unsafe(no_mangle)]
pub extern "C" fn dch_node_down(alloc: Global, handle: &mut Handle) -> u8
    ensures closed { handle.old.raw.value ≡ None → result ≡ closed }
    ensures other { (held : TheHeld) → handle.old.raw.value ≡ Some held → is_node_b held ≡ false → result ≡ other_kind }
    ensures nodeb { (run : Run NodeBNode) → handle.old.raw.value ≡ Some (HeldNodeB run) →
        result ≡ if_idle run.waiting done }
    ensures nodeb_done { (run : Run NodeBNode) → handle.old.raw.value ≡ Some (HeldNodeB run) → result ≡ done →
        HoldsNodeB (Takes node_b_rules DownlinkDue run) handle.new.raw.value }
    ensures same { IsRefused result → handle.new.raw.value ≡ handle.old.raw.value }
{
    let Some(mut held) = take(alloc, handle) else {
        return CLOSED;
    };
    let status = match &mut *held {
        Held::NodeB(session) => session.down(),
        Held::Decoder(_) | Held::Channels(_) | Held::Rnc(_) | Held::Ue(_) => OTHER_KIND,
    };
    put(handle, held);
    status
}

/// Takes that 10 ms have passed.
#[unsafe(no_mangle)]
pub extern "C" fn dch_node_tick(alloc: Global, handle: &mut Handle) -> u8
    ensures closed { handle.old.raw.value ≡ None → result ≡ closed }
    ensures other { (held : TheHeld) → handle.old.raw.value ≡ Some held → is_rnc_or_ue held ≡ false → result ≡
        other_kind }
    ensures rnc { (run : Run RncNode) → handle.old.raw.value ≡ Some (HeldRnc run) →
        result ≡ if_idle run.waiting done }
    ensures rnc_done { (run : Run RncNode) → handle.old.raw.value ≡ Some (HeldRnc run) → result ≡ done →
        HoldsRnc (Takes rnc_rules RncTick run) handle.new.raw.value }
    ensures ue { (run : Run UeNode) → handle.old.raw.value ≡ Some (HeldUe run) →
        result ≡ if_idle run.waiting done }
    ensures ue_done { (run : Run UeNode) → handle.old.raw.value ≡ Some (HeldUe run) → result ≡ done →
        HoldsUe (Takes ue_rules UeTick run) handle.new.raw.value }
    ensures same { IsRefused result → handle.new.raw.value ≡ handle.old.raw.value }
{
    let Some(mut held) = take(alloc, handle) else {
        return CLOSED;
    };
    let status = match &mut *held {
        Held::Rnc(session) => session.tick(),
        Held::Ue(session) => session.tick(),
        Held::Decoder(_) | Held::Channels(_) | Held::NodeB(_) => OTHER_KIND,
    };
    put(handle, held);
    status
}

/// Makes the second configuration active (TS 25.331 8.2.2).
#[unsafe(no_mangle)]
pub extern "C" fn dch_node_change(alloc: Global, handle: &mut Handle) -> u8
    ensures closed { handle.old.raw.value ≡ None → result ≡ closed }
    ensures other { (held : TheHeld) → handle.old.raw.value ≡ Some held → is_node held ≡ false → result ≡ other_kind }
    ensures rnc { (run : Run RncNode) → handle.old.raw.value ≡ Some (HeldRnc run) →
        result ≡ change_status run.waiting run.later run.frames }
    ensures rnc_done { (run : Run RncNode) → handle.old.raw.value ≡ Some (HeldRnc run) → result ≡ done →
        HoldsRnc (Changes rnc_rules run) handle.new.raw.value }
    ensures ue { (run : Run UeNode) → handle.old.raw.value ≡ Some (HeldUe run) →
        result ≡ change_status run.waiting run.later run.frames }
    ensures ue_done { (run : Run UeNode) → handle.old.raw.value ≡ Some (HeldUe run) → result ≡ done →
        HoldsUe (Changes ue_rules run) handle.new.raw.value }
    ensures nodeb { (run : Run NodeBNode) → handle.old.raw.value ≡ Some (HeldNodeB run) →
        result ≡ change_status run.waiting run.later run.frames }
    ensures nodeb_done { (run : Run NodeBNode) → handle.old.raw.value ≡ Some (HeldNodeB run) → result ≡ done →
        HoldsNodeB (Changes node_b_rules run) handle.new.raw.value }
    ensures same { IsRefused result → handle.new.raw.value ≡ handle.old.raw.value }
{
    let Some(mut held) = take(alloc, handle) else {
        return CLOSED;
    };
    let status = match &mut *held {
        Held::Rnc(session) => session.change(),
        Held::Ue(session) => session.change(),
        Held::NodeB(session) => session.change(),
        Held::Decoder(_) | Held::Channels(_) => OTHER_KIND,
    };
    put(handle, held);
    status
}

/// Pulls the next value that a node told, and its octets or letters to the front of a buffer.
#[unsafe(no_mangle)]
pub extern "C" fn dch_next(
    alloc: Global,
    handle: &mut Handle,
    told: &mut Told,
    out: &mut [u8],
) -> u8
    ensures closed { handle.old.raw.value ≡ None → (result ≡ closed) × (told.new ≡ told.old) }
    ensures other { (held : TheHeld) → handle.old.raw.value ≡ Some held → is_node held ≡ false →
        (result ≡ other_kind) × (told.new ≡ told.old) }
    ensures nothing { (held : TheHeld) → handle.old.raw.value ≡ Some held → is_node held ≡ true →
        is_idle (waiting_of held) ≡ true → (result ≡ nothing) × (told.new ≡ told.old) }
    ensures short { (held : TheHeld) (first : TheTold) → handle.old.raw.value ≡ Some held → is_node held ≡ true →
        slice_get (waiting_of held).told 0 ≡ Some first → length out.old < first.length →
        (result ≡ short) × (told.new ≡ first) }
    ensures done { (held : TheHeld) (first : TheTold) → handle.old.raw.value ≡ Some held → is_node held ≡ true →
        slice_get (waiting_of held).told 0 ≡ Some first → first.length ≤ length out.old →
        (result ≡ done) × HoldsPulled held told.new out.old out.new handle.new.raw.value }
    ensures same { IsRefused result → (handle.new.raw.value ≡ handle.old.raw.value) × (out.new ≡ out.old) }
{
    let Some(mut held) = take(alloc, handle) else {
        return CLOSED;
    };
    let status = match &mut *held {
        Held::Rnc(session) => session.next(told, out),
        Held::Ue(session) => session.next(told, out),
        Held::NodeB(session) => session.next(told, out),
        Held::Decoder(_) | Held::Channels(_) => OTHER_KIND,
    };
    put(handle, held);
    status
}
