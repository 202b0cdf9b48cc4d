//! The number of levels of small trees.

ghost use Rattle.std.specs.Prelude.{◌≡◌, IfOk};
ghost use Rattle.mtree_node.specs.Tree.{IsLeveled};

use crate::{InnerEntry, LeafEntries, Node, height};
use items::{Boxed, Items};
use std::alloc::{AllocError, Global};
use std::test::Fail;
use vec_record::Vector;

// A leaf with one vector.
fn leaf(alloc: Global) -> Result<Node, AllocError>
    ensures { IfOk result (IsLeveled 1) }
{
    let mut entries = LeafEntries::new(alloc);
    entries.push(1, 0, &[7])?;
    Ok(Node::Leaf { tag: 0, entries })
}

// A node above a leaf.
fn above(alloc: Global, child: Node) -> Result<Node, AllocError>
    requires { IsLeveled 1 child }
    ensures { IfOk result (IsLeveled 2) }
{
    let mut entries = Items::new(alloc);
    entries.push(InnerEntry {
        object: Vector::from_slice(alloc, &[7])?,
        radius: 0,
        parent: 0,
        child: Boxed::new(alloc, child)?,
    })?;
    Ok(Node::Inner { tag: 0, entries })
}

#[test]
fn a_leaf_is_one_level(rt: HostRuntime) -> Result<(), Fail> {
    let low = leaf(rt.alloc())?;
    assert_eq!(rt; height(&low), 1);
    let high = above(rt.alloc(), low)?;
    assert_eq!(rt; height(&high), 2);
    Ok(())
}
