//! Nodes are opened for a configuration, and maybe for a second one.
ghost use Rattle.std.specs.Prelude.{◌≡◌, ◌≢◌, ◌%◌, None, Some};
ghost use Rattle.dch_check.specs.Both.{RefusesBoth};
ghost use Rattle.dch_handle.specs.declared.held.Held.{Held};
ghost use Rattle.dch_c.specs.HeldNodes.{HoldsNodeB, HoldsRnc, HoldsUe, IsOpenedFrom};
ghost use Rattle.dch_handle.specs.NodeBRules.{node_b_rules};
ghost use Rattle.dch_handle.specs.RncRules.{rnc_rules};
ghost use Rattle.dch_handle.specs.UeRules.{ue_rules};
ghost use Rattle.dch_handle.specs.Opening.{IsOpening, IsRefusedInto, IsRefusedPast};
ghost use Rattle.dch_handle.specs.Statuses.{IsRefused, bad_code, busy, done, no_memory, refused, short};

use dch_check::{Judgement, judge_both};
use dch_handle::{
    BAD_CODE, BUSY, Handle, Held, NO_MEMORY, NodeBSession, Refusal, RncSession, UeSession, hold,
    refuse,
};
use std::alloc::Global;

/// Opens a network controller at a CFN, a multiple of 8, for a configuration and maybe a second one.
#[unsafe(no_mangle)]
pub extern "C" fn dch_rnc_open(
    alloc: Global,
    handle: &mut Handle,
    text: &[u8],
    first_cfn: u8,
    why: &mut [u8],
    refusal: &mut Refusal,
) -> u8
    ensures busy { (held : Held) → handle.old.raw.value ≡ Some held → result ≡ busy }
    ensures code { handle.old.raw.value ≡ None → first_cfn % 8 ≢ 0 → result ≡ bad_code }
    ensures opens { handle.old.raw.value ≡ None → first_cfn % 8 ≡ 0 → IsOpening result }
    ensures done { result ≡ done → HoldsRnc (IsOpenedFrom rnc_rules text.now first_cfn) handle.new.raw.value }
    ensures refused { result ≡ refused → IsRefusedInto RefusesBoth text.now why.old why.new refusal.new }
    ensures short { result ≡ short → IsRefusedPast RefusesBoth text.now why.old why.new refusal.new }
    ensures same { IsRefused result → handle.new.raw.value ≡ handle.old.raw.value }
    ensures busy_same { result ≡ busy → (why.new ≡ why.old) × (refusal.new ≡ refusal.old) }
    ensures code_same { result ≡ bad_code → (why.new ≡ why.old) × (refusal.new ≡ refusal.old) }
    ensures done_same { result ≡ done → (why.new ≡ why.old) × (refusal.new ≡ refusal.old) }
    ensures memory_same { result ≡ no_memory → (why.new ≡ why.old) × (refusal.new ≡ refusal.old) }
{
    if handle.is_open {
        return BUSY;
    }
    if first_cfn % 8 != 0 {
        return BAD_CODE;
    }
    match judge_both(alloc, text) {
        Ok(Judgement::Accepted(configurations)) => {
            match RncSession::open(alloc, configurations, first_cfn) {
                Ok(session) => hold(alloc, Held::Rnc(session), handle),
                Err(_) => NO_MEMORY,
            }
        }
        Ok(Judgement::Refused(line)) => refuse(&line, why, refusal),
        Err(_) => NO_MEMORY,
    }
}

/// Opens a terminal at a CFN, a multiple of 8, for a configuration and maybe a second one.
#[unsafe(no_mangle)]
pub extern "C" fn dch_ue_open(
    alloc: Global,
    handle: &mut Handle,
    text: &[u8],
    first_cfn: u8,
    why: &mut [u8],
    refusal: &mut Refusal,
) -> u8
    ensures busy { (held : Held) → handle.old.raw.value ≡ Some held → result ≡ busy }
    ensures code { handle.old.raw.value ≡ None → first_cfn % 8 ≢ 0 → result ≡ bad_code }
    ensures opens { handle.old.raw.value ≡ None → first_cfn % 8 ≡ 0 → IsOpening result }
    ensures done { result ≡ done → HoldsUe (IsOpenedFrom ue_rules text.now first_cfn) handle.new.raw.value }
    ensures refused { result ≡ refused → IsRefusedInto RefusesBoth text.now why.old why.new refusal.new }
    ensures short { result ≡ short → IsRefusedPast RefusesBoth text.now why.old why.new refusal.new }
    ensures same { IsRefused result → handle.new.raw.value ≡ handle.old.raw.value }
    ensures busy_same { result ≡ busy → (why.new ≡ why.old) × (refusal.new ≡ refusal.old) }
    ensures code_same { result ≡ bad_code → (why.new ≡ why.old) × (refusal.new ≡ refusal.old) }
    ensures done_same { result ≡ done → (why.new ≡ why.old) × (refusal.new ≡ refusal.old) }
    ensures memory_same { result ≡ no_memory → (why.new ≡ why.old) × (refusal.new ≡ refusal.old) }
{
    if handle.is_open {
        return BUSY;
    }
    if first_cfn % 8 != 0 {
        return BAD_CODE;
    }
    match judge_both(alloc, text) {
        Ok(Judgement::Accepted(configurations)) => {
            match UeSession::open(alloc, configurations, first_cfn) {
                Ok(session) => hold(alloc, Held::Ue(session), handle),
                Err(_) => NO_MEMORY,
            }
        }
        Ok(Judgement::Refused(line)) => refuse(&line, why, refusal),
        Err(_) => NO_MEMORY,
    }
}

/// Opens a Node B at a CFN, a multiple of 8, for a configuration and maybe a second one.
#[unsafe(no_mangle)]
pub extern "C" fn dch_nodeb_open(
    alloc: Global,
    handle: &mut Handle,
    text: &[u8],
    first_cfn: u8,
    why: &mut [u8],
    refusal: &mut Refusal,
) -> u8
    ensures busy { (held : Held) → handle.old.raw.value ≡ Some held → result ≡ busy }
    ensures code { handle.old.raw.value ≡ None → first_cfn % 8 ≢ 0 → result ≡ bad_code }
    ensures opens { handle.old.raw.value ≡ None → first_cfn % 8 ≡ 0 → IsOpening result }
    ensures done { result ≡ done → HoldsNodeB (IsOpenedFrom node_b_rules text.now first_cfn) handle.new.raw.value }
    ensures refused { result ≡ refused → IsRefusedInto RefusesBoth text.now why.old why.new refusal.new }
    ensures short { result ≡ short → IsRefusedPast RefusesBoth text.now why.old why.new refusal.new }
    ensures same { IsRefused result → handle.new.raw.value ≡ handle.old.raw.value }
    ensures busy_same { result ≡ busy → (why.new ≡ why.old) × (refusal.new ≡ refusal.old) }
    ensures code_same { result ≡ bad_code → (why.new ≡ why.old) × (refusal.new ≡ refusal.old) }
    ensures done_same { result ≡ done → (why.new ≡ why.old) × (refusal.new ≡ refusal.old) }
    ensures memory_same { result ≡ no_memory → (why.new ≡ why.old) × (refusal.new ≡ refusal.old) }
{
    if handle.is_open {
        return BUSY;
    }
    if first_cfn % 8 != 0 {
        return BAD_CODE;
    }
    match judge_both(alloc, text) {
        Ok(Judgement::Accepted(configurations)) => {
            match NodeBSession::open(alloc, configurations, first_cfn) {
                Ok(session) => hold(alloc, Held::NodeB(session), handle),
                Err(_) => NO_MEMORY,
            }
        }
        Ok(Judgement::Refused(line)) => refuse(&line, why, refusal),
        Err(_) => NO_MEMORY,
    }
}
