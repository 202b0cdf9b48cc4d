//! The walk over a list of shapes, which builds its tree or names the first place where it is none.

ghost use Rattle.std.specs.Prelude.{◌≡◌, ◌↔◌, ℕ, ◌+◌, ◌-◌, ◌*◌, ◌<◌, ◌≤◌, List, Option, length};
ghost use Rattle.std.specs.Prelude.{None, Some, Err, IfOk, OnOk, true, drop};
ghost use Rattle.std.specs.List.{AllByRecursion, flat_map};
ghost use Rattle.std.specs.Option.{option_copied};
ghost use Rattle.std.specs.FinMap as finite;
ghost use Rattle.vec_record.specs.Held.{HaveWidth};
ghost use Rattle.vec_record.specs.Vectors.{IsWidth};
ghost use Rattle.mtree_node.specs.declared.node.InnerEntry.{out-InnerEntry};
ghost use Rattle.mtree_node.specs.declared.node.Node.{Node as PlainNode};
ghost use Rattle.mtree_node.specs.declared.shape.Shape.{Shape as PlainShape};
ghost use Rattle.mtree_node.specs.declared.shape.BadPlace.{BadPlace as Place};
ghost use Rattle.mtree_node.specs.declared.shape.BuildFault.TheVariants.{Bad};
ghost use Rattle.mtree_node.specs.Lists.{HaveVectorsOf};
ghost use Rattle.mtree_node.specs.Tree.{leaves, parent_distance, IsNode};
ghost use Rattle.mtree_node.specs.Walk.{Fails, Builds, bad_place, is_filled, is_of_level, walk_all};
ghost use Rattle.mtree_node.specs.Walk.{walk_leaf_row, walk_inner_row, reaches, walk};
ghost use Rattle.mtree_node.specs.Walk.{first_failing, IsTreeOf, HasObjectsIn, CanBeBuilt};
ghost use Rattle.mtree_node.specs.Progress.{standing, ahead, IsOver, IsInnerRow, HasVectorsIn};
ghost use Rattle.mtree_node.specs.Progress.{IsWhole, IsPart};

use crate::progress::Progress;
use crate::{
    BadPlace, BadWhat, BuildFault, InnerEntry, LeafEntries, LeafEntry, Node, Shape, Shapes,
};
use items::{Boxed, Items};
use std::alloc::{AllocError, Global};
use std::sync::ledger::Ledger;
use vec_record::{Metric, Number, Records, Steps, Vector};

fn bad(node: u32, entry: u32, what: BadWhat) -> BuildFault
    ensures { result ≡ Bad (bad_place node entry what) }
{
    BuildFault::Bad(BadPlace { node, entry, what })
}

// The distance from the object of the node, 0 in the root.
fn parent_distance<M: Metric, L: Ledger>(
    over: Option<&Vector>,
    vector: &Vector,
    steps: &mut Steps<L>,
) -> u32
    requires width { IsWidth (length vector.now) }
    requires over { IsOver (length vector.now) (option_copied over) }
    ensures value { result ≡ parent_distance M.dist (option_copied over.entry) vector.now }
    ensures counted { steps.new ≤ steps.old + 1 }
{
    match over {
        None => 0,
        Some(object) => M::distance(object, vector, steps),
    }
}

fn is_filled(over: Option<&Vector>, low: usize, entries: usize) -> bool
    ensures is { result ≡ is_filled (option_copied over.entry) low entries }
    ensures few { result ≡ true → entries ≤ 30 }
{
    let least = match over {
        None => low,
        Some(_) => 7,
    };
    least <= entries && entries <= 30
}

pub fn is_of_level(level: u32, shapes: &[Shape], next: u32) -> bool
    ensures { result ≡ is_of_level level (drop next shapes.now) }
{
    match shapes.get(next as usize) {
        None => false,
        Some(Shape::Leaf { tag: _, rows: _ }) => level == 1,
        Some(Shape::Inner { tag: _, rows: _ }) => level > 1,
    }
}

// A leaf entry of a node at a place, whose object is `over`, none for the root.
fn build_leaf_entry<M: Metric, L: Ledger>(
    row: &(Number, u32),
    place: u32,
    entry: u32,
    over: Option<&Vector>,
    progress: &mut Progress,
    steps: &mut Steps<L>,
) -> Result<LeafEntry, BuildFault>
    requires width { IsWidth progress.old.left.width }
    requires vectors { HaveWidth progress.old.left.width progress.old.left.vectors }
    requires over { IsOver progress.old.left.width (option_copied over) }
    ensures width { progress.new.left.width ≡ progress.old.left.width }
    ensures fewer { finite.len progress.new.left.vectors ≤ finite.len progress.old.left.vectors }
    ensures vectors { HaveWidth progress.old.left.width progress.new.left.vectors }
    ensures next { progress.new.next ≡ progress.old.next }
    ensures ok { IfOk result (λ e. (rest : List PlainShape)
        → walk_leaf_row M.dist place (option_copied over.entry) entry row.now
        (standing rest progress.old) ≡ Builds e (standing rest progress.new)) }
    ensures bad { (p : Place) → result ≡ Err (Bad p) → (rest : List PlainShape)
        → walk_leaf_row M.dist place (option_copied over.entry) entry row.now
        (standing rest progress.old) ≡ Fails p }
    ensures vector { IfOk result (λ e. length e.vector ≡ progress.old.left.width) }
    ensures counted { steps.new + finite.len progress.new.left.vectors
        ≤ steps.old + finite.len progress.old.left.vectors }
{
    let (number, parent) = *row;
    let Some(vector) = progress.left.remove(number) else {
        return Err(bad(place, entry, BadWhat::Number));
    };
    if parent != parent_distance::<M, L>(over, &vector, steps) {
        return Err(bad(place, entry, BadWhat::Parent));
    }
    Ok(LeafEntry {
        number,
        vector,
        parent,
    })
}

fn build_leaf<M: Metric, L: Ledger>(
    alloc: Global,
    rows: &[(Number, u32)],
    place: u32,
    over: Option<&Vector>,
    progress: &mut Progress,
    steps: &mut Steps<L>,
) -> Result<LeafEntries, BuildFault>
    requires few { length rows.now ≤ 30 }
    requires width { IsWidth progress.old.left.width }
    requires vectors { HaveWidth progress.old.left.width progress.old.left.vectors }
    requires over { IsOver progress.old.left.width (option_copied over) }
    ensures width { progress.new.left.width ≡ progress.old.left.width }
    ensures fewer { finite.len progress.new.left.vectors ≤ finite.len progress.old.left.vectors }
    ensures vectors { HaveWidth progress.old.left.width progress.new.left.vectors }
    ensures next { progress.new.next ≡ progress.old.next }
    ensures ok { IfOk result (λ es. (rest : List PlainShape)
        → walk_all (walk_leaf_row M.dist place (option_copied over.entry)) 0 rows.now
        (standing rest progress.old) ≡ Builds es (standing rest progress.new)) }
    ensures bad { (p : Place) → result ≡ Err (Bad p) → (rest : List PlainShape)
        → walk_all (walk_leaf_row M.dist place (option_copied over.entry)) 0 rows.now
        (standing rest progress.old) ≡ Fails p }
    ensures counted { steps.new + finite.len progress.new.left.vectors
        ≤ steps.old + finite.len progress.old.left.vectors }
{
    let mut entries = LeafEntries::new(alloc);
    for (i, row) in rows.iter().enumerate() {
        let entry = build_leaf_entry::<M, L>(row, place, i as u32, over, progress, steps)?;
        entries.push(entry.number, entry.parent, entry.vector.as_slice())?;
    }
    Ok(entries)
}

// Whether the vectors of leaf entries are within the radius of the object.
fn reaches_leaf<M: Metric, L: Ledger>(
    object: &Vector,
    radius: u32,
    entries: &LeafEntries,
    steps: &mut Steps<L>,
) -> bool
    requires width { IsWidth (length object.now) }
    requires few { length entries.now ≤ 30 }
    requires vectors { HaveVectorsOf (length object.now) entries.now }
    ensures is { result ≡ reaches M.dist object.now radius entries.now }
    ensures counted { steps.new ≤ steps.old + length entries.now }
{
    for at in 0..entries.len() {
        if entries.distance::<M, L>(object, at, steps) > radius {
            return false;
        }
    }
    true
}

#[cycle(reach)]
fn reaches_below<M: Metric, L: Ledger>(
    object: &Vector,
    radius: u32,
    level: u32,
    entries: &[InnerEntry],
    steps: &mut Steps<L>,
) -> bool
    requires width { IsWidth (length object.now) }
    requires nodes { AllByRecursion
        (λ e. (greatest : ℕ) × (over : Option (List ℕ))
        × IsNode M.dist (length object.now) greatest level over (out-InnerEntry e).child)
        entries.now }
    ensures is { result ≡ reaches M.dist object.now radius
        (flat_map (λ e. leaves level (out-InnerEntry e).child) entries.now) }
    ensures counted { steps.new
        ≤ steps.old + length (flat_map (λ e. leaves level (out-InnerEntry e).child) entries.now) }
{
    for entry in entries {
        if !reaches::<M, L>(object, radius, level, entry.child.get(), steps) {
            return false;
        }
    }
    true
}

// Whether the vectors below a node are within the radius of the object.
#[cycle(reach)]
fn reaches<M: Metric, L: Ledger>(
    object: &Vector,
    radius: u32,
    level: u32,
    node: &Node,
    steps: &mut Steps<L>,
) -> bool
    requires width { IsWidth (length object.now) }
    requires node { (greatest : ℕ) × (over : Option (List ℕ))
        × IsNode M.dist (length object.now) greatest level over node.now }
    ensures is { result ≡ reaches M.dist object.now radius (leaves level node.now) }
    ensures counted { steps.new ≤ steps.old + length (leaves level node.now) }
{
    match node {
        Node::Leaf { tag: _, entries } => { reaches_leaf::<M, L>(object, radius, entries, steps) }
        Node::Inner { tag: _, entries } => {
            reaches_below::<M, L>(object, radius, level - 1, entries.as_slice(), steps)
        }
    }
}

// An inner entry of a node at a place, whose object is `over`, none for the root. Its child is on
// the level.
#[cycle(build)]
fn build_inner_entry<M: Metric, L: Ledger>(
    alloc: Global,
    shapes: &[Shape],
    level: u32,
    row: &(u32, u32, u32, Vector),
    place: u32,
    entry: u32,
    over: Option<&Vector>,
    progress: &mut Progress,
    steps: &mut Steps<L>,
) -> Result<InnerEntry, BuildFault>
    requires few { length shapes.now ≤ 200000 }
    requires objects { (greatest : ℕ)
        × AllByRecursion (HasVectorsIn progress.old.left.width greatest) shapes.now
        × IsInnerRow progress.old.left.width greatest row.now }
    requires level { (1 ≤ level) × (level ≤ 5) }
    requires width { IsWidth progress.old.left.width }
    requires vectors { HaveWidth progress.old.left.width progress.old.left.vectors }
    requires over { IsOver progress.old.left.width (option_copied over) }
    requires next { progress.old.next ≤ length shapes.now }
    ensures width { progress.new.left.width ≡ progress.old.left.width }
    ensures next { progress.new.next ≤ length shapes.now }
    ensures ok { IfOk result (λ e. walk_inner_row M.dist level
        (λ object t. walk M.dist level (Some object) t) (leaves level) place
        (option_copied over.entry) entry row.now
        (standing (ahead shapes.now progress.old) progress.old)
        ≡ Builds e (standing (ahead shapes.now progress.new) progress.new)) }
    ensures bad { (p : Place) → result ≡ Err (Bad p)
        → walk_inner_row M.dist level (λ object t. walk M.dist level (Some object) t) (leaves level)
        place (option_copied over.entry) entry row.now
        (standing (ahead shapes.now progress.old) progress.old) ≡ Fails p }
    ensures fewer { finite.len progress.new.left.vectors ≤ finite.len progress.old.left.vectors }
    ensures vectors { OnOk result (HaveWidth progress.new.left.width progress.new.left.vectors) }
    ensures named { OnOk result
        (finite.len progress.new.left.vectors + 7 ≤ finite.len progress.old.left.vectors) }
    ensures whole { OnOk result
        (IsWhole level (finite.len progress.old.left.vectors - finite.len progress.new.left.vectors)
        (steps.new - steps.old)) }
    ensures part { IsPart level
        (finite.len progress.old.left.vectors - finite.len progress.new.left.vectors)
        (steps.new - steps.old) }
{
    let (child, parent, radius, object) = row;
    if *parent != parent_distance::<M, L>(over, object, steps) {
        return Err(bad(place, entry, BadWhat::Parent));
    }
    if *child != progress.next || !is_of_level(level, shapes, progress.next) {
        return Err(bad(place, entry, BadWhat::Child));
    }
    let node = build_node::<M, L>(alloc, shapes, level, Some(object), progress, steps)?;
    if !reaches::<M, L>(object, *radius, level, &node, steps) {
        return Err(bad(place, entry, BadWhat::Radius));
    }
    Ok(InnerEntry {
        object: object.copy()?,
        radius: *radius,
        parent: *parent,
        child: Boxed::new(alloc, node)?,
    })
}

#[cycle(build)]
fn build_inner<M: Metric, L: Ledger>(
    alloc: Global,
    shapes: &[Shape],
    level: u32,
    rows: &[(u32, u32, u32, Vector)],
    place: u32,
    over: Option<&Vector>,
    progress: &mut Progress,
    steps: &mut Steps<L>,
) -> Result<Items<InnerEntry>, BuildFault>
    requires few { length shapes.now ≤ 200000 }
    requires room { length rows.now ≤ 30 }
    requires objects { (greatest : ℕ)
        × AllByRecursion (HasVectorsIn progress.old.left.width greatest) shapes.now
        × AllByRecursion (IsInnerRow progress.old.left.width greatest) rows.now }
    requires level { (1 ≤ level) × (level ≤ 5) }
    requires width { IsWidth progress.old.left.width }
    requires vectors { HaveWidth progress.old.left.width progress.old.left.vectors }
    requires over { IsOver progress.old.left.width (option_copied over) }
    requires next { progress.old.next ≤ length shapes.now }
    ensures width { progress.new.left.width ≡ progress.old.left.width }
    ensures next { progress.new.next ≤ length shapes.now }
    ensures ok { IfOk result (λ es. walk_all
        (walk_inner_row M.dist level (λ object t. walk M.dist level (Some object) t) (leaves level)
        place (option_copied over.entry)) 0 rows.now
        (standing (ahead shapes.now progress.old) progress.old)
        ≡ Builds es (standing (ahead shapes.now progress.new) progress.new)) }
    ensures bad { (p : Place) → result ≡ Err (Bad p)
        → walk_all (walk_inner_row M.dist level (λ object t. walk M.dist level (Some object) t)
        (leaves level) place (option_copied over.entry)) 0 rows.now
        (standing (ahead shapes.now progress.old) progress.old) ≡ Fails p }
    ensures fewer { finite.len progress.new.left.vectors ≤ finite.len progress.old.left.vectors }
    ensures whole { OnOk result
        (IsWhole level (finite.len progress.old.left.vectors - finite.len progress.new.left.vectors)
        (steps.new - steps.old)) }
    ensures part { IsPart level
        (finite.len progress.old.left.vectors - finite.len progress.new.left.vectors)
        (steps.new - steps.old) }
{
    let mut entries = Items::new(alloc);
    for (i, row) in rows.iter().enumerate() {
        let entry = build_inner_entry::<M, L>(
            alloc, shapes, level, row, place, i as u32, over, progress, steps,
        )?;
        entries.push(entry)?;
    }
    Ok(entries)
}

// The node of the next shape and all below it. Its object is `over`, none for the root.
#[cycle(build)]
fn build_node<M: Metric, L: Ledger>(
    alloc: Global,
    shapes: &[Shape],
    level: u32,
    over: Option<&Vector>,
    progress: &mut Progress,
    steps: &mut Steps<L>,
) -> Result<Node, BuildFault>
    requires few { length shapes.now ≤ 200000 }
    requires objects { (greatest : ℕ)
        × AllByRecursion (HasVectorsIn progress.old.left.width greatest) shapes.now }
    requires level { (1 ≤ level) × (level ≤ 6) }
    requires shape { is_of_level level (ahead shapes.now progress.old) ≡ true }
    requires width { IsWidth progress.old.left.width }
    requires vectors { HaveWidth progress.old.left.width progress.old.left.vectors }
    requires over { IsOver progress.old.left.width (option_copied over) }
    ensures width { progress.new.left.width ≡ progress.old.left.width }
    ensures next { progress.new.next ≤ length shapes.now }
    ensures ok { IfOk result (λ n. walk M.dist level (option_copied over.entry)
        (standing (ahead shapes.now progress.old) progress.old)
        ≡ Builds n (standing (ahead shapes.now progress.new) progress.new)) }
    ensures bad { (p : Place) → result ≡ Err (Bad p)
        → walk M.dist level (option_copied over.entry)
        (standing (ahead shapes.now progress.old) progress.old) ≡ Fails p }
    ensures fewer { finite.len progress.new.left.vectors ≤ finite.len progress.old.left.vectors }
    ensures whole { OnOk result
        (IsWhole (level - 1) (finite.len progress.old.left.vectors - finite.len
        progress.new.left.vectors) (steps.new - steps.old)) }
    ensures part { IsPart (level - 1)
        (finite.len progress.old.left.vectors - finite.len progress.new.left.vectors)
        (steps.new - steps.old) }
{
    let place = progress.next;
    progress.next = place + 1;
    match &shapes[place as usize] {
        Shape::Leaf { tag, rows } => {
            if !is_filled(over, 1, rows.len()) {
                return Err(bad(place, 0, BadWhat::Fill));
            }
            let entries = build_leaf::<M, L>(alloc, rows.as_slice(), place, over, progress, steps)?;
            Ok(Node::Leaf { tag: *tag, entries })
        }
        Shape::Inner { tag, rows } => {
            if !is_filled(over, 2, rows.len()) {
                return Err(bad(place, 0, BadWhat::Fill));
            }
            let rows = rows.as_slice();
            let entries = build_inner::<M, L>(
                alloc,
                shapes,
                level - 1,
                rows,
                place,
                over,
                progress,
                steps,
            )?;
            Ok(Node::Inner { tag: *tag, entries })
        }
    }
}

// The objects are bytes.
fn know_objects(shapes: &[Shape])
    ensures { (width greatest : ℕ) → AllByRecursion (HasObjectsIn width greatest) shapes.now
        → AllByRecursion (HasVectorsIn width greatest) shapes.now }
{
    for shape in shapes {
        know_rows(shape);
    }
}

fn know_rows(shape: &Shape)
    ensures { (width greatest : ℕ) → HasObjectsIn width greatest shape.now
        → HasVectorsIn width greatest shape.now }
{
    if let Shape::Inner { tag: _, rows } = shape {
        for row in rows.as_slice() {
            let _ = row.3.as_slice();
        }
    }
}

/// The tree of a height whose nodes in preorder are the shapes, over the records: none where there
/// are none. It computes at most 8 distances for each record.
///
/// There are at most 200,000 shapes, and none exactly where the height is 0 and exactly where
/// there are no records. The height is at most 6, and the first shape is a leaf exactly where it
/// is 1. Objects have the records' width, and no radius is above the metric's greatest distance.
///
/// # Errors
///
/// `Bad` with the first place, in the order of the walk, where the list isn't the preorder of a
/// well-formed tree of this height over exactly these records: each node's number of entries
/// first, then its entries in turn, of a leaf the number and the parent distance, of an inner node
/// the parent distance, the child's place, the child itself and the radius; after that a record
/// that no entry names, and a shape that isn't reached. `Memory` on want of memory.
pub fn build<M: Metric, L: Ledger>(
    alloc: Global,
    height: u32,
    shapes: &Shapes,
    records: &Records,
    steps: &mut Steps<L>,
) -> Result<Option<Boxed<Node>>, BuildFault>
    requires { CanBeBuilt records.now.width (M.most records.now.width) height shapes.now
        records.now.vectors }
    ensures tree { IfOk result
        (λ root. IsTreeOf M.dist records.now.width (M.most records.now.width) height shapes.now
        records.now.vectors root) }
    ensures only { IfOk result
        (λ root. (other : Option PlainNode)
        → IsTreeOf M.dist records.now.width (M.most records.now.width) height shapes.now
        records.now.vectors other → root ≡ other) }
    ensures passes { OnOk result
        (first_failing M.dist height shapes.now records.now.vectors ≡ None) }
    ensures bad { (p : Place) → result ≡ Err (Bad p)
        → first_failing M.dist height shapes.now records.now.vectors ≡ Some p }
    ensures no_tree { (p : Place) → result ≡ Err (Bad p) → (root : Option PlainNode)
        → IsTreeOf M.dist records.now.width (M.most records.now.width) height shapes.now
        records.now.vectors root → ⊥ }
    ensures counted { steps.new ≤ steps.old + 8 * finite.len records.now.vectors }
{
    if height == 0 {
        return Ok(None);
    }
    let shapes = shapes.as_slice();
    know_objects(shapes);
    let mut progress = Progress {
        next: 0,
        left: records.copy()?,
    };
    let root = build_node::<M, L>(alloc, shapes, height, None, &mut progress, steps)?;
    if progress.left.len() > 0 {
        return Err(bad(0, 0, BadWhat::Missing));
    }
    if (progress.next as usize) < shapes.len() {
        return Err(bad(progress.next, 0, BadWhat::Fill));
    }
    Ok(Some(Boxed::new(alloc, root)?))
}
