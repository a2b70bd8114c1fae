use crate::channels::Channels;
use crate::decoder::Decoder;
use crate::node_b::NodeBSession;
use crate::rnc::RncSession;
use crate::ue::UeSession;

/// What a handle may hold.
#[derive(Drop)]
pub enum Held {
    Decoder(Decoder),
    Channels(Channels),
    Rnc(RncSession),
    Ue(UeSession),
    NodeB(NodeBSession),
}
