//! Lists of shapes that are trees, and lists that are none, each with the place where it stops.

ghost use Rattle.std.specs.Prelude.{◌≡◌, ◌<◌, ◌≤◌, length, true, IfOk};
ghost use Rattle.std.specs.List.{AllByRecursion};
ghost use Rattle.mtree_node.specs.Walk.{HasObjectsIn, CanBeBuilt};

use crate::building::is_of_level;
use crate::{BadPlace, BadWhat, BuildFault, InnerShape, LeafShape, Shape, Shapes, build, height};
use int_metric::L1;
use items::Items;
use std::alloc::{AllocError, Global};
use std::marker::Brand;
use std::sync::ledger::{Blank, Ledger};
use std::test::Fail;
use vec_record::{Records, Steps, Vector};

// Leaf k of a tree has the numbers 7 * k + 1 to 7 * k + 7, whose vectors are one byte, 0 to 6.
// Each object is the byte 0 and each radius 6.
fn leaf(alloc: Global, place: u32, is_root: bool) -> Result<Shape, AllocError>
    requires { place < 100 }
{
    let mut rows: LeafShape = Items::new(alloc);
    for byte in 0..7u32 {
        rows.push((7 * place + byte + 1, if is_root { 0 } else { byte }))?;
    }
    Ok(Shape::Leaf { tag: place, rows })
}

// An inner node whose children's places begin at one and are this far apart.
fn inner(alloc: Global, first: u32, apart: u32, entries: u32) -> Result<Shape, AllocError>
    requires first { first < 100 }
    requires apart { apart < 100 }
    requires entries { entries < 100 }
{
    let mut rows: InnerShape = Items::new(alloc);
    for i in 0..entries {
        rows.push((first + apart * i, 0, 6, Vector::from_slice(alloc, &[0])?))?;
    }
    Ok(Shape::Inner { tag: 7, rows })
}

fn push_leaves(alloc: Global, first: u32, count: u32, shapes: &mut Shapes) -> Result<(), AllocError>
    requires first { first < 50 }
    requires count { count < 50 }
{
    for i in 0..count {
        shapes.push(leaf(alloc, first + i, false)?)?;
    }
    Ok(())
}

// A tree of a height of at most 3, and how many records it has.
fn tree(alloc: Global, height: u32) -> Result<(Shapes, u32), AllocError> {
    let mut shapes: Shapes = Items::new(alloc);
    if height == 0 {
        return Ok((shapes, 0));
    }
    if height == 1 {
        shapes.push(leaf(alloc, 0, true)?)?;
        return Ok((shapes, 7));
    }
    if height == 2 {
        shapes.push(inner(alloc, 1, 1, 2)?)?;
        push_leaves(alloc, 0, 2, &mut shapes)?;
        return Ok((shapes, 14));
    }
    shapes.push(inner(alloc, 1, 8, 2)?)?;
    for i in 0..2u32 {
        shapes.push(inner(alloc, 2 + 8 * i, 1, 7)?)?;
        push_leaves(alloc, 7 * i, 7, &mut shapes)?;
    }
    Ok((shapes, 98))
}

fn records_of(alloc: Global, count: u32) -> Result<Records, AllocError>
    ensures { IfOk result (λ r. r.width ≡ 1) }
{
    let mut records = Records::new(alloc, 1);
    for number in 1..count.min(1000) + 1 {
        let vector = Vector::from_slice(alloc, &[((number - 1) % 7) as u8])?;
        if records.get(number).is_none() {
            records.insert(number, vector)?;
        }
    }
    Ok(records)
}

// What is changed in a tree.
#[derive(Clone, Copy)]
enum Change {
    // the number or the child's place of an entry
    Names(usize, usize, u32),
    Parent(usize, usize, u32),
    Radius(usize, usize, u32),
    // the last entry of a node is left out
    Short(usize),
    // one leaf more behind all others
    Behind,
    // another count of records
    Records(u32),
}

fn set_leaf(rows: &mut LeafShape, change: Change) {
    match change {
        Change::Names(_, entry, value) if entry < rows.len() => rows.item_mut(entry).0 = value,
        Change::Parent(_, entry, value) if entry < rows.len() => rows.item_mut(entry).1 = value,
        Change::Short(_) if rows.len() > 0 => {
            let _ = rows.remove(rows.len() - 1);
        }
        _ => {}
    }
}

fn set_inner(rows: &mut InnerShape, change: Change) {
    match change {
        Change::Names(_, entry, value) if entry < rows.len() => rows.item_mut(entry).0 = value,
        Change::Parent(_, entry, value) if entry < rows.len() => rows.item_mut(entry).1 = value,
        Change::Radius(_, entry, value) if entry < rows.len() => rows.item_mut(entry).2 = value,
        Change::Short(_) if rows.len() > 0 => {
            let _ = rows.remove(rows.len() - 1);
        }
        _ => {}
    }
}

fn spoil(alloc: Global, shapes: &mut Shapes, change: Change) -> Result<(), AllocError> {
    let node = match change {
        Change::Names(node, _, _) => node,
        Change::Parent(node, _, _) => node,
        Change::Radius(node, _, _) => node,
        Change::Short(node) => node,
        Change::Records(_) => return Ok(()),
        Change::Behind => {
            shapes.push(leaf(alloc, 0, false)?)?;
            return Ok(());
        }
    };
    if node < shapes.len() {
        match shapes.item_mut(node) {
            Shape::Leaf { tag: _, rows } => set_leaf(rows, change),
            Shape::Inner { tag: _, rows } => set_inner(rows, change),
        }
    }
    Ok(())
}

fn has_objects_in(shape: &Shape, width: u32, greatest: u32) -> bool
    ensures { result ≡ true → HasObjectsIn width greatest shape.now }
{
    match shape {
        Shape::Leaf { tag: _, rows: _ } => true,
        Shape::Inner { tag: _, rows } => rows_have_objects_in(rows.as_slice(), width, greatest),
    }
}

fn rows_have_objects_in(rows: &[(u32, u32, u32, Vector)], width: u32, greatest: u32) -> bool
    ensures { result ≡ true → AllByRecursion (λ row. (length row.3 ≡ width) × (row.2 ≤ greatest))
        rows.now }
{
    for row in rows {
        if row.3.as_slice().len() != width as usize || row.2 > greatest {
            return false;
        }
    }
    true
}

fn have_objects_in(shapes: &[Shape], width: u32, greatest: u32) -> bool
    ensures { result ≡ true → AllByRecursion (HasObjectsIn width greatest) shapes.now }
{
    for shape in shapes {
        if !has_objects_in(shape, width, greatest) {
            return false;
        }
    }
    true
}

// Whether a list can be asked for.
fn can_be_built(height: u32, shapes: &Shapes, records: &Records) -> bool
    requires { records.now.width ≡ 1 }
    ensures { result ≡ true → CanBeBuilt 1 255 height shapes.now records.now.vectors }
{
    let all = shapes.as_slice();
    all.len() <= 200000
        && height <= 6
        && (height == 0) == (all.len() == 0)
        && (height == 0) == (records.len() == 0)
        && (height == 0 || is_of_level(height, all, 0))
        && have_objects_in(all, 1, 255)
}

// What is built of a tree of a height after changes: its height, or the place that fails. Nothing
// where the list can't be asked for.
fn built<L: Ledger>(
    rt: &HostRuntime,
    height_given: u32,
    changes: &[Change],
    blank: Blank,
) -> Result<Option<Result<u32, BadPlace>>, AllocError>
    requires name { blank.name ≡ L.name }
    requires parts { blank.parts ≡ L.parts }
    requires some { 0 < blank.parts }
{
    let alloc = rt.alloc();
    let mut steps = Steps::<L>::new(rt, blank);
    let (mut shapes, mut count) = tree(alloc, height_given)?;
    for change in changes {
        spoil(alloc, &mut shapes, *change)?;
        if let Change::Records(other) = *change {
            count = other;
        }
    }
    let records = records_of(alloc, count)?;
    if !can_be_built(height_given, &shapes, &records) {
        return Ok(None);
    }
    match build::<L1, L>(alloc, height_given, &shapes, &records, &mut steps) {
        Ok(None) => Ok(Some(Ok(0))),
        Ok(Some(root)) => Ok(Some(Ok(height(root.get())))),
        Err(BuildFault::Bad(place)) => Ok(Some(Err(place))),
        Err(BuildFault::Memory) => Err(AllocError),
    }
}

// A height, changes, and the node, entry and kind of the place that fails first.
const SPOILED: [(u32, &[Change], u32, u32, BadWhat); 18] = [
    // a place that isn't the next one, and one past the list
    (2, &[Change::Names(0, 1, 1)], 0, 1, BadWhat::Child),
    (3, &[Change::Names(1, 2, 17)], 1, 2, BadWhat::Child),
    // a leaf where an inner node belongs: the second inner node has lost its place
    (3, &[Change::Names(0, 1, 2)], 0, 1, BadWhat::Child),
    // six entries in a leaf, and one in the root
    (2, &[Change::Short(2)], 2, 0, BadWhat::Fill),
    (2, &[Change::Short(0)], 0, 0, BadWhat::Fill),
    // parent distances, of a leaf entry, in the root and below it
    (2, &[Change::Parent(1, 3, 2)], 1, 3, BadWhat::Parent),
    (2, &[Change::Parent(0, 0, 1)], 0, 0, BadWhat::Parent),
    (3, &[Change::Parent(9, 6, 1)], 9, 6, BadWhat::Parent),
    (1, &[Change::Parent(0, 2, 2)], 0, 2, BadWhat::Parent),
    // a radius that leaves one vector out
    (2, &[Change::Radius(0, 1, 5)], 0, 1, BadWhat::Radius),
    // a number that is named twice, and one that no record has
    (2, &[Change::Names(2, 0, 1)], 2, 0, BadWhat::Number),
    (1, &[Change::Names(0, 6, 99)], 0, 6, BadWhat::Number),
    // a record that no entry names, before a shape that isn't reached
    (
        3,
        &[Change::Records(99), Change::Behind],
        0,
        0,
        BadWhat::Missing,
    ),
    // a shape that the walk doesn't reach
    (2, &[Change::Behind], 3, 0, BadWhat::Fill),
    // the child is walked before its radius is tested
    (
        2,
        &[Change::Radius(0, 0, 5), Change::Parent(1, 3, 2)],
        1,
        3,
        BadWhat::Parent,
    ),
    // the number is tested before the parent distance
    (
        2,
        &[Change::Names(1, 1, 99), Change::Parent(1, 1, 5)],
        1,
        1,
        BadWhat::Number,
    ),
    // the parent distance is tested before the child's place, in the root and below it
    (
        2,
        &[Change::Names(0, 1, 1), Change::Parent(0, 1, 1)],
        0,
        1,
        BadWhat::Parent,
    ),
    (
        3,
        &[Change::Names(1, 2, 17), Change::Parent(1, 2, 1)],
        1,
        2,
        BadWhat::Parent,
    ),
];

#[test]
fn trees_of_each_height_are_built(rt: HostRuntime) -> Result<(), Fail> {
    for height in 0..4u32 {
        let found = built::<Brand>(&rt, height, &[], Blank::new(1))?;
        assert!(rt; found == Some(Ok(height)), "{height}");
    }
    Ok(())
}

#[test]
fn the_first_failing_place_is_named(rt: HostRuntime) -> Result<(), Fail> {
    for (height, changes, node, entry, what) in SPOILED {
        let found = built::<Brand>(&rt, height, changes, Blank::new(1))?;
        let place = BadPlace { node, entry, what };
        assert!(rt; found == Some(Err(place)), "{node} {entry} {what:?}");
    }
    Ok(())
}
