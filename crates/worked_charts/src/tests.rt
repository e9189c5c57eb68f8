use crate::marks::are_as_reckoned;
use std::test::Fail;

#[test]
fn a_lost_packet_is_one_mark_and_a_repeated_one_two_arrows(rt: HostRuntime) -> Result<(), Fail> {
    let alloc = rt.alloc();
    assert!(rt; are_as_reckoned(alloc)?);
    Ok(())
}
