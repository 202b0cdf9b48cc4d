//! Items and boxed values, changed in place.

use crate::{Boxed, Items};
use std::test::Fail;

#[test]
fn parts_are_changed_in_place(rt: HostRuntime) -> Result<(), Fail> {
    let mut items = Items::from_vec(vec![in rt.alloc(); 1u32, 2, 3]?);
    items.push(4)?;
    items.insert(1, 5)?;
    *items.item_mut(2) = 6;
    assert_eq!(rt; items.remove(0), 1);
    assert!(rt; items.into_vec().as_slice() == [5, 6, 3, 4].as_slice());
    let mut boxed = Boxed::new(rt.alloc(), 7u32)?;
    *boxed.get_mut() += 1;
    assert_eq!(rt; *boxed.get(), 8);
    assert_eq!(rt; boxed.into_inner(), 8);
    Ok(())
}

#[test]
fn a_new_list_is_empty(rt: HostRuntime) -> Result<(), Fail> {
    let items: Items<u32> = Items::new(rt.alloc());
    assert_eq!(rt; items.len(), 0);
    assert!(rt; items.as_slice().is_empty());
    Ok(())
}
