ghost use Rattle.std.specs.Prelude.{◌≡◌, [], ◌∷◌, Some, option_map, slice_get};
ghost use Rattle.dch_top.specs.Benches.{no_nodes, node_bs_of};

use dch_gen::Leg;
use dch_nodecmd::NodeB;
use dch_nodecmd::dch_rnc::Rnc;
use dch_nodecmd::dch_ue::Ue;
use std::marker::Model;

/// The Node Bs of a run.
#[derive(Drop)]
enum NodeBs {
    Nothing,
    /// One Node B, whose leg is 0.
    One(NodeB),
    /// The legs of a soft handover, each with its Node B.
    Legs(Vec<Leg>),
}

/// The nodes that a run opened.
pub struct Bench {
    ue: Option<Ue>,
    node_bs: NodeBs,
    rnc: Option<Rnc>,
}

// By hand, so that whoever holds one drops it by one call.
impl Drop for Bench {
    fn drop(self) {
        let Bench {
            ue: _ue,
            node_bs: _node_bs,
            rnc: _rnc,
        } = self;
    }
}

impl Model for Bench {
    ghost use Rattle.dch_top.specs.Benches.{Nodes, node_bs_in};

    ghost Value = { Nodes };

    ghost view = { λ b. record { ue = b.ue; node_bs = node_bs_in b.node_bs; rnc = b.rnc } };
}

impl Bench {
    /// An empty bench.
    pub fn new() -> Self
        ensures { result ≡ no_nodes }
    {
        Bench {
            ue: None,
            node_bs: NodeBs::Nothing,
            rnc: None,
        }
    }

    /// The terminal, if the bench holds one.
    pub fn ue(&self) -> Option<&Ue>
        ensures { option_map (λ node. node.now) result ≡ self.now.ue }
    {
        self.ue.as_ref()
    }

    /// The Node B of a leg, if the bench holds one. Outside soft handover there is one leg, 0.
    pub fn node_b(&self, leg: u8) -> Option<&NodeB>
        ensures { option_map (λ node. node.now) result ≡ slice_get self.now.node_bs leg }
    {
        match &self.node_bs {
            NodeBs::One(node) if leg == 0 => Some(node),
            NodeBs::Nothing | NodeBs::One(_) => None,
            NodeBs::Legs(legs) => legs.get(leg as usize).map(Leg::node_b),
        }
    }

    /// The network controller, if the bench holds one.
    pub fn rnc(&self) -> Option<&Rnc>
        ensures { option_map (λ node. node.now) result ≡ self.now.rnc }
    {
        self.rnc.as_ref()
    }

    /// Takes a terminal, in place of the one before.
    pub(crate) fn hold_ue(&mut self, node: Ue)
        ensures { self.new ≡ record self.old { ue = Some node } }
    {
        self.ue = Some(node);
    }

    /// Takes a Node B, whose leg is 0, in place of those before.
    pub(crate) fn hold_node_b(&mut self, node: NodeB)
        ensures { self.new ≡ record self.old { node_bs = node ∷ [] } }
    {
        self.node_bs = NodeBs::One(node);
    }

    /// Takes the Node Bs of legs, in place of those before.
    pub(crate) fn hold_legs(&mut self, legs: Vec<Leg>)
        ensures { self.new ≡ record self.old { node_bs = node_bs_of legs.items } }
    {
        self.node_bs = NodeBs::Legs(legs);
    }

    /// Takes a network controller, in place of the one before.
    pub(crate) fn hold_rnc(&mut self, node: Rnc)
        ensures { self.new ≡ record self.old { rnc = Some node } }
    {
        self.rnc = Some(node);
    }

    /// Closes all nodes held.
    pub fn close(self) {}
}
