//! The crates as a library: a network controller, a Node B and a terminal in one process. Standard input has a
//! configuration. An SDU of octets goes up, and the octets that come up at the network controller are printed.
#![tactic(auto)]

ghost use Rattle.std.specs.Prelude.{◌≡◌, true};
ghost use Rattle.dch_example.specs.TwoWay.{IsTwoWay};

use anyhow::{Result, anyhow, ensure};
use dch_accept::{Accepted, accept};
use dch_bits::NoMemory;
use dch_config::read;
use dch_indication::{Indication, Indications};
use dch_nodeb::{NodeB, NodeBEvent};
use dch_rnc::{Rnc, RncEvent};
use dch_types::Config;
use dch_ue::{Ue, UeEvent};
use std::alloc::Global;
use std::io;

/// The octets of the SDUs that came up, and whether memory for some was lacking.
#[derive(Drop)]
struct Sdus {
    data: Vec<u8>,
    lost: bool,
}

impl Indications for Sdus {
    ghost shows = { λ _ _ _. Unit {0} };

    fn indicate(&mut self, it: Indication<'_>) {
        if let Indication::Got { octets, .. } = it {
            self.lost |= self.data.extend_from_slice(octets).is_err();
        }
    }
}

/// Whether bearer 0 sends in both directions, and Iub set 0 has channels in both.
fn is_two_way(config: &Config) -> bool
    ensures { result ≡ true → IsTwoWay config.now }
{
    let sets = config.uplink.side.has_set(0) && config.downlink.side.has_set(0);
    matches!(config.bearers.as_slice(), [bearer, ..] if sets && bearer.up.is_some() && bearer.down.is_some())
}

/// Opens the nodes, offers an SDU at the terminal, and lets four radio frames of 10 ms pass.
#[tactic(auto, using(crate::proofs::Fitting::sent_tfci))]
fn exchange(alloc: Global, accepted: &Accepted) -> Result<Sdus, NoMemory>
    requires { IsTwoWay accepted.now.config }
{
    let mut rnc = Rnc::open(alloc, accepted, 0)?;
    let mut node_b = NodeB::open(alloc, accepted, 0)?;
    let mut ue = Ue::open(alloc, accepted, 0)?;
    let data = Vec::new(alloc);
    let mut sdus = Sdus { data, lost: false };
    let sdu = UeEvent::Unit {
        bearer: 0,
        octets: b"hello, network\n",
        bits: &[],
    };
    ue.step_with(accepted, sdu, &mut sdus);
    for _ in 0..4 {
        rnc.step_with(accepted, RncEvent::Tick, &mut sdus);
        if let Some(frame) = rnc.iub(0) {
            node_b.step_with(accepted, NodeBEvent::Iub { set: 0, frame }, &mut sdus);
        }
        node_b.step_with(accepted, NodeBEvent::Down, &mut sdus);
        let frame = node_b.sent();
        ue.step_with(accepted, UeEvent::Phy { frame }, &mut sdus);
        ue.step_with(accepted, UeEvent::Tick, &mut sdus);
        let frame = ue.sent();
        node_b.step_with(accepted, NodeBEvent::Phy { frame }, &mut sdus);
        if let Some(frame) = node_b.iub(0) {
            rnc.step_with(accepted, RncEvent::Iub { set: 0, frame }, &mut sdus);
        }
    }
    Ok(sdus)
}

fn main(rt: HostRuntime) -> Result<()> {
    let alloc = rt.alloc();
    let config = read(alloc, io::read_to_string(alloc, rt.stdin())?.as_bytes())?;
    let accepted = accept(alloc, config).map_err(|_| anyhow!("the configuration is refused"))?;
    ensure!(is_two_way(accepted.config()), "no bearer 0 or no set 0");
    let sdus = exchange(alloc, &accepted).map_err(|_| anyhow!("out of memory"))?;
    ensure!(!sdus.lost, "out of memory");
    print!(rt; "{}", String::from_utf8_lossy(alloc, &sdus.data)?)?;
    Ok(())
}
