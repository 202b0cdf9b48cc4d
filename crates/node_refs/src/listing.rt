//! The list of all nodes in pages: from a root on, and behind it those that aren't reached.

ghost use Rattle.std.specs.Prelude.{◌≡◌, ◌+◌, ◌<◌, ◌≤◌, ◌^◌, length, IfOk, OnOk, true, not};
ghost use Rattle.std.specs.Prelude.{[]};
ghost use Rattle.std.specs.List.{AllByRecursion, filter};
ghost use Rattle.node_refs.specs.Pages.{is_used, is_in, HasSlots};
ghost use Rattle.node_refs.specs.Listing.{join, standing_at, listed};
ghost use Rattle.node_refs.specs.inside.Told.{IsReady, Tells};

use crate::pages::{NodePage, is_used, shape_at, used_refs};
use crate::progress::Progress;
use crate::walking::push_node;
use items::Items;
use mtree_node::Shapes;
use std::alloc::{AllocError, Global};

/// Nodes, each as a shape, and the reference of each.
#[derive(Drop)]
pub struct Listed {
    pub shapes: Shapes,
    pub refs: Items<u32>,
}

/// Whether a root names a used place of the kind of its level: a leaf at height 1, an inner node
/// above.
pub fn is_root(pages: &[NodePage], height: u32, root: u32) -> bool
    requires { 1 ≤ height }
    ensures { result ≡ is_used height pages.now root }
{
    is_used(pages, height, root)
}

// A walk that has listed nothing.
fn begun(alloc: Global, pages: &[NodePage]) -> Result<Progress, AllocError>
    requires { length pages.now + 2 < 2 ^ 26 }
    ensures shapes { IfOk result (λ progress. progress.shapes ≡ []) }
    ensures refs { IfOk result (λ progress. progress.refs ≡ []) }
    ensures ready { IfOk result (IsReady pages.now) }
{
    Ok(Progress {
        shapes: Items::new(alloc),
        refs: Items::new(alloc),
        table: vec![in alloc; false; 64 * (pages.len() + 2)]?,
    })
}

// Those of some references that a walk hasn't listed.
fn unreached(alloc: Global, used: &[u32], progress: &Progress) -> Result<Items<u32>, AllocError>
    requires tells { Tells progress.now.table.items progress.now.refs }
    requires inside { AllByRecursion (λ r. r < length progress.now.table.items) used.now }
    ensures { IfOk result (λ rest. rest
        ≡ filter (λ r. not (is_in progress.now.refs r)) used.now) }
{
    let mut rest = Items::new(alloc);
    for reference in used {
        if !progress.table[*reference as usize] {
            rest.push(*reference)?;
        }
    }
    Ok(rest)
}

// Adds what stands at references.
fn push_standing(
    alloc: Global,
    pages: &[NodePage],
    refs: &[u32],
    listed: &mut Listed,
) -> Result<(), AllocError>
    ensures { OnOk result (listed.new ≡ join listed.old (standing_at pages.now refs.now)) }
{
    for reference in refs {
        listed.shapes.push(shape_at(alloc, pages, *reference)?)?;
        listed.refs.push(*reference)?;
    }
    Ok(())
}

/// The nodes from a root on, each before the nodes below it, and then the used places that aren't
/// reached, by page and then slot. A child whose reference is refused, since it names no used place
/// of its level's kind or one that was named before, gets a place past the list.
///
/// The root is one by [`is_root`], on one of at most 6 levels. There are fewer than `2 ^ 26` pages,
/// pages 0 and 1 among them, and a leaf page has at most 63 slots.
///
/// # Errors
///
/// `AllocError` where the memory is too small for the list.
pub fn list_nodes(
    alloc: Global,
    pages: &[NodePage],
    height: u32,
    root: u32,
) -> Result<Listed, AllocError>
    requires height { (1 ≤ height) × (height ≤ 6) }
    requires few { length pages.now + 2 < 2 ^ 26 }
    requires slots { AllByRecursion HasSlots pages.now }
    requires root { is_used height pages.now root ≡ true }
    ensures { IfOk result (λ nodes. nodes ≡ listed pages.now height root) }
{
    let mut progress = begun(alloc, pages)?;
    push_node(alloc, pages, height, root, &mut progress)?;
    let used = used_refs(alloc, pages)?;
    let rest = unreached(alloc, used.as_slice(), &progress)?;
    let Progress {
        shapes,
        refs,
        table: _,
    } = progress;
    let mut listed = Listed { shapes, refs };
    push_standing(alloc, pages, rest.as_slice(), &mut listed)?;
    Ok(listed)
}
