//! The walk from a root to all nodes below it.

ghost use Rattle.std.specs.Prelude.{◌≡◌, ◌<◌, ◌≤◌, length, IfOk, OnOk, true, false};
ghost use Rattle.std.specs.Prelude.{slice_set};
ghost use Rattle.node_refs.specs.Pages.{is_in, is_good};
ghost use Rattle.node_refs.specs.Listing.{join, put_first, nothing, child_place, child_nodes};
ghost use Rattle.node_refs.specs.Listing.{placed_rows, nodes_below, list_node};
ghost use Rattle.node_refs.specs.inside.Told.{IsReady, Tells, listed_so_far};

use crate::pages::{NodePage, inner_at, is_used, leaf_at, leaf_copy};
use crate::progress::Progress;
use items::Items;
use mtree_node::{InnerShape, Shape, Shapes};
use std::alloc::{AllocError, Global};
use vec_record::Vector;

/// The place of a child whose reference is refused.
const PAST: u32 = u32::MAX;

fn is_good(pages: &[NodePage], level: u32, reference: u32, progress: &Progress) -> bool
    requires { IsReady pages.now progress.now }
    ensures { result ≡ is_good level pages.now progress.now.refs reference }
{
    is_used(pages, level, reference) && !progress.table[reference as usize]
}

// Adds a node with its reference.
fn note(progress: &mut Progress, node: Shape, reference: u32) -> Result<(), AllocError>
    requires table { reference < length progress.old.table.items }
    requires tells { Tells progress.old.table.items progress.old.refs }
    requires free { is_in progress.old.refs reference ≡ false }
    ensures tells { OnOk result (Tells progress.new.table.items progress.new.refs) }
    ensures table { OnOk result
        (length progress.new.table.items ≡ length progress.old.table.items) }
    ensures listed { OnOk result (listed_so_far progress.new
        ≡ join (listed_so_far progress.old) (put_first reference node nothing)) }
{
    progress.shapes.push(node)?;
    progress.refs.push(reference)?;
    progress.table[reference as usize] = true;
    Ok(())
}

// Puts a node in the place of another.
fn put_node(shapes: &mut Shapes, at: usize, node: Shape)
    requires { at < length shapes.old }
    ensures { shapes.new ≡ slice_set shapes.old at node }
{
    *shapes.item_mut(at) = node;
}

#[cycle(walk)]
fn push_child(
    alloc: Global,
    pages: &[NodePage],
    level: u32,
    reference: u32,
    progress: &mut Progress,
) -> Result<u32, AllocError>
    requires level { 1 ≤ level }
    requires ready { IsReady pages.now progress.old }
    ensures ready { OnOk result (IsReady pages.now progress.new) }
    ensures place { IfOk result
        (λ place. place ≡ child_place pages.now level progress.old.refs reference) }
    ensures listed { OnOk result (listed_so_far progress.new
        ≡ join (listed_so_far progress.old)
        (child_nodes pages.now (list_node pages.now level) level progress.old.refs reference)) }
{
    if !is_good(pages, level, reference, progress) {
        return Ok(PAST);
    }
    let place = progress.refs.len() as u32;
    push_node(alloc, pages, level, reference, progress)?;
    Ok(place)
}

// The rows of an inner node with the places of the children, which are listed one after the other.
#[cycle(walk)]
fn push_rows(
    alloc: Global,
    pages: &[NodePage],
    level: u32,
    rows: &[(u32, u32, u32, Vector)],
    progress: &mut Progress,
) -> Result<InnerShape, AllocError>
    requires level { 1 ≤ level }
    requires ready { IsReady pages.now progress.old }
    ensures ready { OnOk result (IsReady pages.now progress.new) }
    ensures rows { IfOk result (λ placed. placed
        ≡ placed_rows pages.now (list_node pages.now level) level progress.old.refs rows.now) }
    ensures listed { OnOk result (listed_so_far progress.new
        ≡ join (listed_so_far progress.old)
        (nodes_below pages.now (list_node pages.now level) level progress.old.refs rows.now)) }
{
    let mut placed = Items::new(alloc);
    for row in rows {
        let place = push_child(alloc, pages, level, row.0, progress)?;
        let object = Vector::from_slice(alloc, row.3.as_slice())?;
        placed.push((place, row.1, row.2, object))?;
    }
    Ok(placed)
}

/// Adds the node at a reference and all below it, behind those that were listed.
#[cycle(walk)]
pub fn push_node(
    alloc: Global,
    pages: &[NodePage],
    level: u32,
    reference: u32,
    progress: &mut Progress,
) -> Result<(), AllocError>
    requires level { 1 ≤ level }
    requires ready { IsReady pages.now progress.old }
    requires good { is_good level pages.now progress.old.refs reference ≡ true }
    ensures ready { OnOk result (IsReady pages.now progress.new) }
    ensures listed { OnOk result (listed_so_far progress.new
        ≡ join (listed_so_far progress.old)
        (list_node pages.now level reference progress.old.refs)) }
{
    if level == 1 {
        let rows = leaf_copy(alloc, leaf_at(pages, reference))?;
        return note(
            progress,
            Shape::Leaf {
                tag: reference,
                rows,
            },
            reference,
        );
    }
    // The node stands before its children, and its rows are known behind them.
    let at = progress.shapes.len();
    let empty = Shape::Inner {
        tag: reference,
        rows: Items::new(alloc),
    };
    note(progress, empty, reference)?;
    let rows = push_rows(
        alloc,
        pages,
        level - 1,
        inner_at(pages, reference),
        progress,
    )?;
    put_node(
        &mut progress.shapes,
        at,
        Shape::Inner {
            tag: reference,
            rows,
        },
    );
    Ok(())
}
