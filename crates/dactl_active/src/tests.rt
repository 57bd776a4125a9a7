//! One run through the calls, with the order that a reader would write down.

use super::*;
use std::test::Fail;

#[test]
fn order_is_kept_and_turned(rt: HostRuntime) -> Result<(), Fail> {
    let mut ring = Ring::with_room(rt.alloc(), 5)?;
    assert_eq!(rt; ring.first(), None);
    ring.insert(3);
    ring.insert(1);
    ring.insert(4);
    ring.remove(1);

    assert_eq!(rt; ring.len(), 2);
    assert_eq!(rt; ring.first(), Some(3));
    assert!(rt; !ring.contains(1) && ring.contains(4));

    ring.advance();
    assert_eq!(rt; ring.first(), Some(4));
    ring.advance();
    assert_eq!(rt; ring.first(), Some(3));
    Ok(())
}
