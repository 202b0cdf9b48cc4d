//! Queries against scans, and their costs against those that `tools/tree_cases.py` computes.

ghost use Rattle.std.specs.Prelude.{◌≡◌, ℕ, ◌+◌, ◌≤◌, ◌<◌, min, All, length, slice_get, sum_by};
ghost use Rattle.std.specs.Prelude.{OnOk, IfOk, Some};
ghost use Rattle.std.specs.List.{AllByRecursion};
ghost use Rattle.vec_record.specs.Vectors.{IsVector, IsWidth};
ghost use Rattle.mtree_node.specs.declared.node.InnerEntry.{out-InnerEntry};
ghost use Rattle.mtree_node.specs.Cost.{leaf_cost, entry_cost, cost};
ghost use Rattle.mtree_index.specs.Found.{IsShaped, IsEntryOver};
ghost use Rattle.mtree_index.specs.Tree.{query_cost};

use crate::MTree;
use crate::expected::COSTS;
use crate::pruning::is_skipped;
use crate::tests::{EQUAL, PLANE, Vectors, grown, vector_of};
use int_metric::L1;
use mtree_node::{InnerEntry, LeafEntries, Node};
use plain_dbscan::RangeIndex;
use std::alloc::{AllocError, Global};
use std::marker::Brand;
use std::sync::ledger::{Blank, Ledger};
use std::test::Fail;
use vec_record::{Metric, Numbers, Steps, Vector};

// The sum of two costs, cut at a million.
fn cut_sum(a: u32, b: u32) -> u32
    requires a { a ≤ 1000000 }
    requires b { b ≤ 1000000 }
    ensures { result ≡ min (a + b) 1000000 }
{
    (a + b).min(1000000)
}

fn cost_of_leaf<M: Metric>(
    entries: &LeafEntries,
    at: usize,
    to_object: Option<u32>,
    centre: &Vector,
    radius: u32,
) -> u32
    requires { at < length entries.now }
    ensures is { (e : _) → slice_get entries.now at ≡ Some e → result
        ≡ leaf_cost M.dist centre.now radius to_object e }
    ensures small { result ≤ 1 }
{
    let _ = centre;
    if is_skipped(to_object, u64::from(radius), entries.parents()[at]) {
        0
    } else {
        1
    }
}

fn cost_of_leaves<M: Metric>(
    entries: &LeafEntries,
    to_object: Option<u32>,
    centre: &Vector,
    radius: u32,
) -> u32
    ensures { result ≡ min (sum_by (leaf_cost M.dist centre.now radius to_object) entries.now)
        1000000 }
{
    let mut total = 0;
    for at in 0..entries.len() {
        let more = cost_of_leaf::<M>(entries, at, to_object, centre, radius);
        total = cut_sum(total, more);
    }
    total
}

#[cycle(cost)]
fn cost_of_entry<M: Metric, L: Ledger>(
    entry: &InnerEntry,
    height: u32,
    to_object: Option<u32>,
    centre: &Vector,
    radius: u32,
    steps: &mut Steps<L>,
) -> u32
    requires width { IsWidth (length centre.now) }
    requires shaped { IsEntryOver (length centre.now) (IsShaped (length centre.now) height)
        (out-InnerEntry entry.now) }
    ensures { result ≡ min (entry_cost M.dist centre.now radius
        (cost M.dist centre.now radius height) to_object (out-InnerEntry entry.now)) 1000000 }
{
    let reach = u64::from(radius) + u64::from(entry.radius);
    if is_skipped(to_object, reach, entry.parent) {
        return 0;
    }
    let distance = M::distance(centre, &entry.object, steps);
    if u64::from(distance) > reach {
        return 1;
    }
    let below = entry.child.get();
    cut_sum(
        1,
        cost_of_node::<M, L>(below, height, Some(distance), centre, radius, steps),
    )
}

#[cycle(cost)]
fn cost_of_entries<M: Metric, L: Ledger>(
    entries: &[InnerEntry],
    height: u32,
    to_object: Option<u32>,
    centre: &Vector,
    radius: u32,
    steps: &mut Steps<L>,
) -> u32
    requires width { IsWidth (length centre.now) }
    requires shaped { AllByRecursion
        (λ e. IsEntryOver (length centre.now) (IsShaped (length centre.now) height)
        (out-InnerEntry e)) entries.now }
    ensures { result ≡ min (sum_by
        (λ e. entry_cost M.dist centre.now radius (cost M.dist centre.now radius height) to_object
        (out-InnerEntry e)) entries.now) 1000000 }
{
    let mut total = 0;
    for entry in entries {
        let more = cost_of_entry::<M, L>(entry, height, to_object, centre, radius, steps);
        total = cut_sum(total, more);
    }
    total
}

// The cost of a query below a node, cut at a million.
#[cycle(cost)]
fn cost_of_node<M: Metric, L: Ledger>(
    node: &Node,
    height: u32,
    to_object: Option<u32>,
    centre: &Vector,
    radius: u32,
    steps: &mut Steps<L>,
) -> u32
    requires width { IsWidth (length centre.now) }
    requires shaped { IsShaped (length centre.now) height node.now }
    ensures { result ≡ min (cost M.dist centre.now radius height to_object node.now) 1000000 }
{
    match node {
        Node::Leaf { tag: _, entries } => {
            cost_of_leaves::<M>(entries, to_object, centre, radius)
        }
        Node::Inner { tag: _, entries } => {
            let all = entries.as_slice();
            cost_of_entries::<M, L>(all, height - 1, to_object, centre, radius, steps)
        }
    }
}

fn cost_of<M: Metric, L: Ledger>(
    tree: &MTree<M>,
    centre: &Vector,
    radius: u32,
    steps: &mut Steps<L>,
) -> u32
    requires width { length centre.now ≡ tree.now.width }
    requires lawful { IsWidth tree.now.width }
    ensures { result ≡ min (query_cost M.dist tree.now centre.now radius) 1000000 }
{
    let height = tree.height();
    match tree.root() {
        None => 0,
        Some(root) => cost_of_node::<M, L>(root, height, None, centre, radius, steps),
    }
}

// Asks for the numbers near each centre, and forgets them.
fn ask_all<M: Metric, I: RangeIndex<M>, L: Ledger>(
    index: &I,
    centres: &[Vector],
    eps: u32,
    out: &mut Numbers,
    steps: &mut Steps<L>,
) -> Result<(), AllocError>
    requires { All (λ c. length c ≡ I.width index.now) centres.now }
    ensures counted { OnOk result
        (steps.new ≡ steps.old + sum_by (λ c. I.cost index.now c eps) centres.now) }
    ensures at_most { steps.new ≤ steps.old + sum_by (λ c. I.cost index.now c eps) centres.now }
{
    for centre in centres {
        index.range(centre, eps, out, steps)?;
    }
    Ok(())
}

// The numbers of the vectors within the radius, by a look at each.
fn scan<L: Ledger>(
    alloc: Global,
    vectors: &[Vector],
    centre: &Vector,
    radius: u32,
    steps: &mut Steps<L>,
) -> Result<Vec<u32>, AllocError>
    requires centre { length centre.now ≡ 2 }
    requires vectors { AllByRecursion (λ v. length v ≡ 2) vectors.now }
    requires few { length vectors.now < 1000 }
{
    let mut found = Vec::new(alloc);
    let mut number = 1;
    for vector in vectors {
        if L1::distance(centre, vector, steps) <= radius {
            found.push(number)?;
        }
        number += 1;
    }
    Ok(found)
}

// The cost of a query, none where its answer isn't that of a scan.
fn checked_cost<L: Ledger>(
    tree: &MTree<L1>,
    vectors: &[Vector],
    centre: &Vector,
    radius: u32,
    out: &mut Numbers,
    steps: &mut Steps<L>,
    alloc: Global,
) -> Result<Option<u32>, AllocError>
    requires tree { tree.now.width ≡ 2 }
    requires centre { length centre.now ≡ 2 }
    requires vectors { AllByRecursion (λ v. length v ≡ 2) vectors.now }
    requires few { length vectors.now < 1000 }
{
    tree.range(centre, radius, out, steps)?;
    let scanned = scan(alloc, vectors, centre, radius, steps)?;
    if out.as_slice() == scanned.as_slice() {
        Ok(Some(cost_of::<L1, L>(tree, centre, radius, steps)))
    } else {
        Ok(None)
    }
}

// The vectors of so many numbers from one on.
fn vectors_of(
    alloc: Global,
    vectors: Vectors,
    first: u32,
    count: u32,
) -> Result<Vec<Vector>, AllocError>
    requires width { vectors.width ≡ 2 }
    requires some { 1 ≤ first }
    requires few { first + count ≤ 1000 }
    ensures widths { IfOk result (λ v. AllByRecursion (λ x. length x ≡ 2) v.items) }
    ensures count { IfOk result (λ v. length v.items ≡ count) }
{
    let mut found = Vec::new(alloc);
    let mut number = first;
    for _ in 0..count {
        let vector = vector_of(alloc, vectors, number)?;
        found.push(vector)?;
        number += 1;
    }
    Ok(found)
}

// Whether the queries with these centres cost what is expected, and answer as scans do.
fn are_as_expected<L: Ledger>(
    tree: &MTree<L1>,
    vectors: &[Vector],
    centres: &[Vector],
    radius: u32,
    expected: &[u32],
    steps: &mut Steps<L>,
    alloc: Global,
) -> Result<bool, AllocError>
    requires tree { tree.now.width ≡ 2 }
    requires centres { AllByRecursion (λ v. length v ≡ 2) centres.now }
    requires vectors { AllByRecursion (λ v. length v ≡ 2) vectors.now }
    requires few { length vectors.now < 1000 }
    requires each { length expected.now ≡ length centres.now }
{
    let mut out = Numbers::new(alloc);
    for (k, centre) in centres.iter().enumerate() {
        let cost = checked_cost(tree, vectors, centre, radius, &mut out, steps, alloc)?;
        if cost != Some(expected[k]) {
            return Ok(false);
        }
    }
    Ok(true)
}

fn table_holds<L: Ledger>(rt: &HostRuntime, steps: &mut Steps<L>) -> Result<bool, AllocError> {
    let alloc = rt.alloc();
    let vectors = vectors_of(alloc, PLANE, 1, 400)?;
    let centres = vectors_of(alloc, PLANE, 401, 100)?;
    let tree = grown::<Brand>(rt, PLANE, 400, Blank::new(1))?;
    let [none, one, three, all] = [
        &COSTS[..100],
        &COSTS[100..200],
        &COSTS[200..300],
        &COSTS[300..],
    ];
    Ok(
        are_as_expected(&tree, &vectors, &centres, 0, none, steps, alloc)?
            && are_as_expected(&tree, &vectors, &centres, 1, one, steps, alloc)?
            && are_as_expected(&tree, &vectors, &centres, 3, three, steps, alloc)?
            && are_as_expected(&tree, &vectors, &centres, 255, all, steps, alloc)?,
    )
}

fn equal_costs<L: Ledger>(
    rt: &HostRuntime,
    count: u32,
    steps: &mut Steps<L>,
) -> Result<Option<u32>, AllocError>
    requires { count < 1000 }
{
    let alloc = rt.alloc();
    let vectors = vectors_of(alloc, EQUAL, 1, count)?;
    let tree = grown::<Brand>(rt, EQUAL, count, Blank::new(1))?;
    let mut out = Numbers::new(alloc);
    let centre = vector_of(alloc, EQUAL, 1)?;
    checked_cost(&tree, &vectors, &centre, 0, &mut out, steps, alloc)
}

fn with_steps<L: Ledger>(rt: &HostRuntime, blank: Blank) -> Result<[Option<u32>; 2], AllocError>
    requires name { blank.name ≡ L.name }
    requires parts { blank.parts ≡ L.parts }
    requires some { 0 < blank.parts }
{
    let mut steps = Steps::<L>::new(rt, blank);
    let high = equal_costs(rt, 31, &mut steps)?;
    let low = equal_costs(rt, 30, &mut steps)?;
    Ok([high, low])
}

fn table_with_steps<L: Ledger>(rt: &HostRuntime, blank: Blank) -> Result<bool, AllocError>
    requires name { blank.name ≡ L.name }
    requires parts { blank.parts ≡ L.parts }
    requires some { 0 < blank.parts }
{
    let mut steps = Steps::<L>::new(rt, blank);
    table_holds(rt, &mut steps)
}

#[test]
fn queries_over_equal_vectors_cost_one_each(rt: HostRuntime) -> Result<(), Fail> {
    let costs = with_steps::<Brand>(&rt, Blank::new(1))?;
    assert_eq!(rt; costs, [Some(33), Some(30)]);
    Ok(())
}

#[test]
fn queries_answer_as_scans_and_cost_what_the_rules_say(rt: HostRuntime) -> Result<(), Fail> {
    assert!(rt; table_with_steps::<Brand>(&rt, Blank::new(1))?);
    Ok(())
}
