//! The calls of a map, on one number.

use crate::NumberMap;
use std::test::Fail;

#[test]
fn a_number_is_put_in_changed_and_taken_out(rt: HostRuntime) -> Result<(), Fail> {
    let mut map = NumberMap::new(rt.alloc());
    map.insert(7, 1u8)?;
    map.insert(4_294_967_295, 2)?;
    map.insert(7, 3)?;
    map.replace(7, 4);
    map.replace(8, 5);
    assert_eq!(rt; map.len(), 2);
    assert_eq!(rt; map.get(7), Some(&4));
    assert_eq!(rt; map.get(8), None);
    assert_eq!(rt; map.remove(7), Some(4));
    assert_eq!(rt; map.remove(7), None);
    if let Some(value) = map.get_mut(4_294_967_295) {
        *value = 6;
    }
    assert_eq!(rt; map.remove(4_294_967_295), Some(6));
    assert_eq!(rt; map.len(), 0);
    Ok(())
}
