use dch_bits::{Bit, Offer};
use dch_rlctm::TmSend;
use std::test::Fail;

#[test]
fn one_unit_of_one_size(rt: HostRuntime) -> Result<(), Fail> {
    let mut sender = TmSend::open(rt.alloc(), 1, 8)?;
    let short = sender.offer(&[8], &[Bit::One; 7]);
    let first = sender.offer(&[8], &[Bit::One; 8]);
    let second = sender.offer(&[8], &[Bit::Zero; 8]);
    assert!(rt; short == Offer::WrongSize && first == Offer::Accepted && second == Offer::Full);
    assert!(rt; sender.available() == (8, 1));
    Ok(())
}
