use crate::{Holders, Latch, PageLatch};
use rm_base::NodeId;
use std::test::Fail;

#[test]
fn readers_share_and_a_writer_is_alone(rt: HostRuntime) -> Result<(), Fail> {
    let one = NodeId::new(0).ok_or("one")?;
    let two = NodeId::new(1).ok_or("two")?;
    let mut latch = PageLatch::new();
    assert!(rt; matches!(latch.try_s(one), Latch::Granted));
    assert!(rt; matches!(latch.try_s(one), Latch::Granted));
    assert!(rt; matches!(latch.try_s(two), Latch::Granted));
    assert!(rt; matches!(latch.try_x(one), Latch::Busy(Holders::Shared(_))));
    latch.release(two);
    assert!(rt; matches!(latch.try_x(one), Latch::Granted));
    assert!(rt; matches!(latch.try_x(one), Latch::Granted));
    assert!(rt; matches!(latch.try_s(two), Latch::Busy(Holders::Exclusive(_))));
    Ok(())
}

#[test]
fn a_writer_that_reads_lets_others_read(rt: HostRuntime) -> Result<(), Fail> {
    let one = NodeId::new(0).ok_or("one")?;
    let two = NodeId::new(1).ok_or("two")?;
    let mut latch = PageLatch::new();
    assert!(rt; matches!(latch.try_x(one), Latch::Granted));
    latch.release(two);
    assert!(rt; matches!(latch.try_x(two), Latch::Busy(_)));
    assert!(rt; matches!(latch.try_s(one), Latch::Granted));
    assert!(rt; matches!(latch.try_s(two), Latch::Granted));
    latch.release(one);
    latch.release(two);
    assert!(rt; matches!(latch.holders(), Holders::Free));
    Ok(())
}
