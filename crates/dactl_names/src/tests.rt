//! One run through the calls.

use super::*;
use std::test::Fail;

#[test]
fn the_first_value_stays(rt: HostRuntime) -> Result<(), Fail> {
    let mut map = NameMap::new(rt.alloc());
    assert!(rt; map.note(rt.alloc(), b"sum", 1u32)?);
    assert!(rt; map.note(rt.alloc(), b"summands", 2)?);
    assert!(rt; !map.note(rt.alloc(), b"sum", 3)?);
    assert!(rt; !map.note(rt.alloc(), b"summands", 4)?);

    assert_eq!(rt; map.get(b"sum"), Some(1));
    assert_eq!(rt; map.get(b"summands"), Some(2));
    assert_eq!(rt; map.get(b"su"), None);
    assert_eq!(rt; map.get(b"summand"), None);
    assert_eq!(rt; map.get(b"summanda"), None);
    Ok(())
}
