use dch_bits::*;

#[test]
fn texts(rt: HostRuntime) {
    let mut bits = [Bit::One; 8];
    assert!(rt; read_bits_text(b"10x1", &mut bits) == Err(BitsError::BadChar(2)));
    assert!(rt; read_bits_text(b"101", &mut bits[..2]) == Err(BitsError::TooLong));
}
