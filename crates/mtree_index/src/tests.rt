//! Trees against those that the rules give, which `tools/tree_cases.py` computes apart from the
//! program.

ghost use Rattle.std.specs.Prelude.{◌≡◌, ℕ, ◌+◌, ◌<◌, ◌≤◌, length, None, OnOk, IfOk};
ghost use Rattle.std.specs.FinMap as map;
ghost use Rattle.mtree_index.specs.Tree.{contents};

use crate::MTree;
use crate::expected::{FAR_RUN, PLANE_RUN, Row, TREE};
use crate::shape_tests::tag_nodes;
use int_metric::{L1, Max};
use mtree_node::{InnerEntry, LeafEntries, Node};
use plain_dbscan::RangeIndex;
use std::alloc::{AllocError, Global};
use std::marker::Brand;
use std::sync::ledger::{Blank, Ledger};
use std::test::Fail;
use vec_record::{Metric, Steps, Vector};

/// The vectors of a test by their numbers, from 1 on. Up to the number `scattered` the coordinates
/// are the upper five bits of the next numbers of one sequence. All further vectors are equal,
/// with coordinates of 255.
#[derive(Clone, Copy)]
pub struct Vectors {
    pub width: u32,
    pub scattered: u32,
}

pub const PLANE: Vectors = Vectors {
    width: 2,
    scattered: 1000,
};

pub const EQUAL: Vectors = Vectors {
    width: 2,
    scattered: 0,
};

const FAR: Vectors = Vectors {
    width: 40,
    scattered: 400,
};

fn next(state: u32) -> u32 {
    state.wrapping_mul(1664525).wrapping_add(1013904223)
}

// The sequence's number after so many.
fn number_after(count: u32) -> u32 {
    let mut state = 1u32;
    for _ in 0..count {
        state = next(state);
    }
    state
}

// Fills coordinates from the numbers of the sequence behind this one.
fn scatter(coordinates: &mut [u8], before: u32) {
    let mut state = before;
    for place in 0..coordinates.len() {
        state = next(state);
        coordinates[place] = (state >> 27) as u8;
    }
}

/// The vector of a number.
pub fn vector_of(alloc: Global, vectors: Vectors, number: u32) -> Result<Vector, AllocError>
    requires width { vectors.width ≤ 40 }
    requires some { 1 ≤ number }
    requires few { number < 1000 }
    ensures { IfOk result (λ v. length v ≡ vectors.width) }
{
    let mut coordinates = [255u8; 40];
    let width = vectors.width as usize;
    if number <= vectors.scattered {
        let before = number_after((number - 1) * vectors.width);
        scatter(&mut coordinates[..width], before);
    }
    Vector::from_slice(alloc, &coordinates[..width])
}

/// Inserts the next number of a sequence.
pub fn insert_next<M: Metric, L: Ledger>(
    tree: &mut MTree<M>,
    number: u32,
    vector: &Vector,
    steps: &mut Steps<L>,
) -> Result<(), AllocError>
    requires width { tree.old.width ≡ length vector.now }
    requires number { number < 1000 }
    requires fresh { (q : ℕ) → number ≤ q → map.get (contents tree.old) q ≡ None }
    requires few { map.len (contents tree.old) < number }
    ensures width { tree.new.width ≡ tree.old.width }
    ensures contents { OnOk result
        (contents tree.new ≡ map.insert (contents tree.old) number vector.now) }
    ensures fresh { OnOk result ((q : ℕ) → number + 1 ≤ q → map.get (contents tree.new) q ≡ None) }
    ensures few { OnOk result (map.len (contents tree.new) < number + 1) }
{
    tree.insert(number, vector, steps)
}

// Sets the tags of the nodes to 1, 2 and so on after each 300 insertions.
fn tag_each_300<M: Metric>(
    alloc: Global,
    tree: &mut MTree<M>,
    number: u32,
) -> Result<(), AllocError>
    ensures width { tree.new.width ≡ tree.old.width }
    ensures contents { contents tree.new ≡ contents tree.old }
{
    if number % 300 == 0 {
        tag_nodes(alloc, tree)
    } else {
        Ok(())
    }
}

// The tree of the first vectors, with tags that were set on the way.
fn grow<M: Metric, L: Ledger>(
    alloc: Global,
    vectors: Vectors,
    count: u32,
    steps: &mut Steps<L>,
) -> Result<MTree<M>, AllocError>
    requires width { (1 ≤ vectors.width) × (vectors.width ≤ 40) }
    requires count { count < 1000 }
    ensures width { IfOk result (λ tree. tree.width ≡ vectors.width) }
{
    let mut tree: MTree<M> = MTree::empty(alloc, vectors.width);
    for number in 1..count + 1 {
        let vector = vector_of(alloc, vectors, number)?;
        insert_next(&mut tree, number, &vector, steps)?;
        tag_each_300(alloc, &mut tree, number)?;
    }
    Ok(tree)
}

/// The same, with a count of its own.
pub fn grown<L: Ledger>(
    rt: &HostRuntime,
    vectors: Vectors,
    count: u32,
    blank: Blank,
) -> Result<MTree<L1>, AllocError>
    requires width { (1 ≤ vectors.width) × (vectors.width ≤ 40) }
    requires count { count < 1000 }
    requires name { blank.name ≡ L.name }
    requires parts { blank.parts ≡ L.parts }
    requires some { 0 < blank.parts }
    ensures { IfOk result (λ t. t.width ≡ vectors.width) }
{
    let alloc = rt.alloc();
    let mut steps = Steps::<L>::new(rt, blank);
    grow(alloc, vectors, count, &mut steps)
}

fn show_leaf(entries: &LeafEntries, out: &mut Vec<u32>) -> Result<(), AllocError> {
    for (number, parent) in entries.numbers().iter().zip(entries.parents()) {
        out.push(*number)?;
        out.push(*parent)?;
    }
    Ok(())
}

fn show_inner(entry: &InnerEntry, out: &mut Vec<u32>) -> Result<(), AllocError> {
    for byte in entry.object.as_slice() {
        out.push(u32::from(*byte))?;
    }
    out.push(entry.radius)?;
    out.push(entry.parent)?;
    Ok(())
}

fn show_head(kind: u32, tag: u32, entries: usize, out: &mut Vec<u32>) -> Result<(), AllocError> {
    out.push(kind)?;
    out.push(tag)?;
    out.push(entries.min(1000) as u32)?;
    Ok(())
}

// The nodes from this one on, each before its children.
#[cycle(show)]
fn show(node: &Node, levels: u32, out: &mut Vec<u32>) -> Result<(), AllocError> {
    if levels == 0 {
        return Ok(());
    }
    match node {
        Node::Leaf { tag, entries } => {
            show_head(0, *tag, entries.len(), out)?;
            show_leaf(entries, out)
        }
        Node::Inner { tag, entries } => {
            show_head(1, *tag, entries.len(), out)?;
            show_below(entries.as_slice(), levels - 1, out)
        }
    }
}

#[cycle(show)]
fn show_below(entries: &[InnerEntry], levels: u32, out: &mut Vec<u32>) -> Result<(), AllocError> {
    for entry in entries {
        show_inner(entry, out)?;
    }
    for entry in entries {
        show(entry.child.get(), levels, out)?;
    }
    Ok(())
}

// A tree as the list of its nodes.
fn list_of<M: Metric>(alloc: Global, tree: &MTree<M>) -> Result<Vec<u32>, AllocError> {
    let mut out = Vec::new(alloc);
    if let Some(root) = tree.root() {
        show(root, tree.height(), &mut out)?;
    }
    Ok(out)
}

#[test]
fn a_tree_is_the_one_that_the_rules_give(rt: HostRuntime) -> Result<(), Fail> {
    let tree = grown::<Brand>(&rt, PLANE, 400, Blank::new(1))?;
    assert!(rt; list_of(rt.alloc(), &tree)?.as_slice() == TREE.as_slice());
    Ok(())
}

// The tree of 31 equal vectors: the odd numbers are in the left leaf, the even ones in the right.
const HALVES: [u32; 79] = [
    1, 0, 2, 255, 255, 0, 0, 255, 255, 0, 0, //
    0, 0, 16, 1, 0, 3, 0, 5, 0, 7, 0, 9, 0, 11, 0, 13, 0, 15, 0, 17, 0, 19, 0, 21, 0, 23, 0, 25, 0,
    27, 0, 29, 0, 31, 0, //
    0, 0, 15, 2, 0, 4, 0, 6, 0, 8, 0, 10, 0, 12, 0, 14, 0, 16, 0, 18, 0, 20, 0, 22, 0, 24, 0, 26,
    0, 28, 0, 30, 0,
];

#[test]
fn equal_vectors_are_parted_in_turns(rt: HostRuntime) -> Result<(), Fail> {
    for (count, height) in [(0, 0), (1, 1), (30, 1), (31, 2)] {
        let tree = grown::<Brand>(&rt, EQUAL, count, Blank::new(1))?;
        assert_eq!(rt; tree.height(), height);
        assert_eq!(rt; tree.root().is_none(), count == 0);
        let list = list_of(rt.alloc(), &tree)?;
        assert!(rt; height < 2 || list.as_slice() == HALVES.as_slice());
    }
    Ok(())
}

// Removes numbers, and tells how many were found.
fn remove_some<M: Metric, L: Ledger>(
    alloc: Global,
    tree: &mut MTree<M>,
    vectors: Vectors,
    range: (u32, u32),
    steps: &mut Steps<L>,
) -> Result<u32, AllocError>
    requires width { tree.old.width ≡ vectors.width }
    requires at_most { vectors.width ≤ 40 }
    requires some { 1 ≤ range.0 }
    requires few { range.1 < 1000 }
    ensures width { OnOk result (tree.new.width ≡ vectors.width) }
{
    let (first, last) = range;
    let mut found = 0u32;
    for number in first..last + 1 {
        let vector = vector_of(alloc, vectors, number)?;
        if tree.remove(number, &vector, steps)? {
            found = found.wrapping_add(1);
        }
    }
    Ok(found)
}

fn digest(list: &[u32]) -> u32 {
    let mut value = 0u32;
    for n in list {
        value = value.wrapping_mul(31).wrapping_add(*n);
    }
    value
}

// Whether a tree is that of a row. Its nodes then get the tags 1, 2 and so on.
fn is_as_expected<M: Metric>(
    alloc: Global,
    tree: &mut MTree<M>,
    row: &Row,
) -> Result<bool, AllocError>
    ensures width { tree.new.width ≡ tree.old.width }
{
    let list = list_of(alloc, tree)?;
    let (_, height, length, sum) = *row;
    let same = tree.height() == height && list.len() == length && digest(&list) == sum;
    tag_nodes(alloc, tree)?;
    Ok(same)
}

// Whether the removals from the first number on leave the trees of the rows.
fn leaves_the_trees<M: Metric, L: Ledger>(
    alloc: Global,
    tree: &mut MTree<M>,
    vectors: Vectors,
    rows: &[Row],
    steps: &mut Steps<L>,
) -> Result<bool, AllocError>
    requires width { tree.old.width ≡ vectors.width }
    requires at_most { vectors.width ≤ 40 }
{
    let mut done = 0u32;
    for row in rows {
        let last = row.0.min(999);
        let range = (done.saturating_add(1), last);
        let found = remove_some(alloc, tree, vectors, range, steps)?;
        if found != last.wrapping_sub(done) || !is_as_expected(alloc, tree, row)? {
            return Ok(false);
        }
        done = last;
    }
    Ok(true)
}

fn run_goes<M: Metric, L: Ledger>(
    rt: &HostRuntime,
    vectors: Vectors,
    count: u32,
    rows: &[Row],
    blank: Blank,
) -> Result<bool, AllocError>
    requires width { (1 ≤ vectors.width) × (vectors.width ≤ 40) }
    requires count { count < 1000 }
    requires name { blank.name ≡ L.name }
    requires parts { blank.parts ≡ L.parts }
    requires some { 0 < blank.parts }
{
    let alloc = rt.alloc();
    let mut steps = Steps::<L>::new(rt, blank);
    let mut tree: MTree<M> = grow(alloc, vectors, count, &mut steps)?;
    leaves_the_trees(alloc, &mut tree, vectors, rows, &mut steps)
}

#[test]
fn removals_leave_the_trees_that_the_rules_give(rt: HostRuntime) -> Result<(), Fail> {
    let near = run_goes::<L1, Brand>(&rt, PLANE, 700, &PLANE_RUN, Blank::new(1))?;
    assert!(rt; near);
    Ok(())
}

#[test]
fn far_removals_leave_the_trees_that_the_rules_give(rt: HostRuntime) -> Result<(), Fail> {
    let far = run_goes::<Max, Brand>(&rt, FAR, 940, &FAR_RUN, Blank::new(1))?;
    assert!(rt; far);
    Ok(())
}

// The leaf that is left of 31 equal vectors after the removal of 18.
const JOINED: [u32; 29] = [
    0, 0, 13, 19, 0, 21, 0, 23, 0, 25, 0, 27, 0, 29, 0, 31, 0, 20, 0, 22, 0, 24, 0, 26, 0, 28, 0,
    30, 0,
];

// Whether of these numbers of equal vectors so many are found, and the tree then has this height.
fn are_found<L: Ledger>(
    alloc: Global,
    tree: &mut MTree<L1>,
    range: (u32, u32),
    found: u32,
    height: u32,
    steps: &mut Steps<L>,
) -> Result<bool, AllocError>
    requires width { tree.old.width ≡ 2 }
    requires some { 1 ≤ range.0 }
    requires few { range.1 < 1000 }
    ensures width { OnOk result (tree.new.width ≡ 2) }
{
    let removed = remove_some(alloc, tree, EQUAL, range, steps)?;
    Ok(removed == found && tree.height() == height)
}

fn equal_vectors_go<L: Ledger>(rt: &HostRuntime, blank: Blank) -> Result<bool, AllocError>
    requires name { blank.name ≡ L.name }
    requires parts { blank.parts ≡ L.parts }
    requires some { 0 < blank.parts }
{
    let alloc = rt.alloc();
    let mut steps = Steps::<L>::new(rt, blank);
    let mut tree = grow(alloc, EQUAL, 31, &mut steps)?;
    let high = are_found(alloc, &mut tree, (1, 17), 17, 2, &mut steps)?;
    let low = are_found(alloc, &mut tree, (18, 18), 1, 1, &mut steps)?;
    let list = list_of(alloc, &tree)?;
    let empty = are_found(alloc, &mut tree, (19, 31), 13, 0, &mut steps)?;
    let absent = are_found(alloc, &mut tree, (31, 31), 0, 0, &mut steps)?;
    let rows = list.as_slice() == JOINED.as_slice();
    Ok(high && low && rows && empty && absent)
}

#[test]
fn a_leaf_with_too_few_joins_its_sibling(rt: HostRuntime) -> Result<(), Fail> {
    let gone = equal_vectors_go::<Brand>(&rt, Blank::new(1))?;
    assert!(rt; gone);
    Ok(())
}
