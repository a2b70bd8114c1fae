use dch_pool::Pool;
use std::test::Fail;

#[test]
fn two_blocks_are_lent_and_given_back(rt: HostRuntime) -> Result<(), Fail> {
    let mut pool = Pool::open(rt.alloc(), 2, 64)?;
    let first = pool.take().expect(&rt, "a block");
    let second = pool.take().expect(&rt, "another block");
    assert!(rt; pool.spare() == 0);
    pool.bytes_mut(&first).fill(0x3c);
    pool.bytes_mut(&second).fill(0xa5);
    assert!(rt; pool.bytes(&first) == [0x3c; 64].as_slice());
    pool.bytes_mut(&first).fill(0x0f);
    assert!(rt; pool.bytes(&second) == [0xa5; 64].as_slice());
    if let Some(third) = pool.take() {
        pool.give(third);
        panic!(rt; "a third block");
    }
    pool.give(first);
    assert!(rt; pool.spare() == 1);
    pool.give(second);
    assert!(rt; pool.spare() == 2);
    pool.close();
    Ok(())
}
