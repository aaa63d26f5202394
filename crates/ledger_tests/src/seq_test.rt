//! A copy of a sequence.

use seq::Seq;
use std::test::Fail;

#[test]
fn items_are_copied(rt: HostRuntime) -> Result<(), Fail> {
    let items: Seq<u8> = Seq::new([3, 1, 2].to_vec(rt.alloc())?);
    assert_eq!(rt; items.clone()?.into_vec().as_slice(), [3, 1, 2].as_slice());
    Ok(())
}
