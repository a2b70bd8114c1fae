//! Laws on two ends of an acknowledged-mode bearer (TS 25.322 11.3): whatever is offered, built, lost and delivered;
//! where no block is lost; which PDUs are built; and how much a receiver holds. Definitions and laws, no code.
#![tactic(auto)]

mod bound_laws;
mod laws;
mod listed_laws;
mod lossless_laws;

pub use bound_laws::bounded_law;
pub use laws::in_order_law;
pub use listed_laws::listed_law;
pub use lossless_laws::lossless_law;
