//! Tests of bits, codes and rate matching, of inputs, outputs, lines and reports, and of RLC: their public calls over
//! values from outside. A crate with tests is proved twice, so they stand here together.
#![tactic(auto)]

#[cfg(test)]
mod amrecv;
#[cfg(test)]
mod amsend;
#[cfg(test)]
mod bits;
#[cfg(test)]
mod collision;
#[cfg(test)]
mod inter;
#[cfg(test)]
mod io;
#[cfg(test)]
mod lines;
#[cfg(test)]
mod matching;
#[cfg(test)]
mod pair;
#[cfg(test)]
mod pool;
#[cfg(test)]
mod report;
#[cfg(test)]
mod reset;
#[cfg(test)]
mod rlcpdu;
#[cfg(test)]
mod rlctm;
#[cfg(test)]
mod rlcum;
#[cfg(test)]
mod segment;
#[cfg(test)]
mod status;
#[cfg(test)]
mod texts;
#[cfg(test)]
mod tfci;
#[cfg(test)]
mod trellis;
