//! The tree that callers see, and its calls.

ghost use Rattle.std.specs.Prelude.{◌≡◌, ℕ, ◌+◌, ◌*◌, ◌<◌, ◌≤◌, ◌↔◌, List, Option, length, None};
ghost use Rattle.std.specs.Prelude.{Some, Err, IfOk, IfSome, OnOk, [], ◌∷◌};
ghost use Rattle.std.specs.FinMap as map;
ghost use Rattle.std.specs.Option.{option_copied, option_map};
ghost use Rattle.vec_record.specs.Vectors.{IsWidth, AreBytes};
ghost use Rattle.mtree_node.specs.declared.node.Node.{Node as PlainNode};
ghost use Rattle.mtree_node.specs.declared.shape.BadPlace.{BadPlace as Place};
ghost use Rattle.mtree_node.specs.declared.shape.BuildFault.TheVariants.{Bad};
ghost use Rattle.mtree_node.specs.Preorder.{size, retagged};
ghost use Rattle.mtree_node.specs.Tree.{IsLeveled, IsLevel, IsTree};
ghost use Rattle.mtree_node.specs.Walk.{first_failing, IsTreeOf, CanBeBuilt};
ghost use Rattle.mtree_index.specs.Found.{numbers_within};
ghost use Rattle.mtree_index.specs.Tree.{contents, leaves_of, query_cost, root_cost, IsRoot};
ghost use Rattle.mtree_index.specs.Tree.{IsLawful, IsInserted, grown_from};
ghost use Rattle.mtree_index.specs.Shrinking.{IsRemoved};

use crate::insertion::insert_below;
use crate::query::search;
use crate::settle::Pair;
use crate::shrinking::shrink;
use items::{Boxed, Items};
use mtree_node::{BuildFault, LeafEntries, Node, Shapes, build};
use plain_dbscan::RangeIndex;
use std::alloc::{AllocError, Global};
use std::marker::{Model, PhantomData};
use std::mem;
use std::sync::ledger::Ledger;
use vec_record::{Metric, Number, Numbers, Records, Steps, Vector};

/// An M-tree: vectors of one width under distinct numbers, searched by distance.
///
/// Contracts see its width, its height and its root. The type keeps the tree well formed: all
/// leaves at one depth, 7 to 30 entries in each node but the root, exact parent distances, radii
/// that cover what is below and aren't above the metric's greatest distance, and distinct numbers.
#[derive(Drop)]
pub struct MTree<M: Metric> {
    alloc: Global,
    width: u32,
    height: u32,
    root: Option<Node>,
    metric: PhantomData<M>,
}

impl<M: Metric> Model for MTree<M> {
    ghost use Rattle.mtree_index.specs.Plain.{PlainTree, plain_code};
    ghost use Rattle.mtree_index.specs.Tree.{IsLawful};

    ghost Value = { PlainTree };

    ghost coded = { plain_code };

    ghost view = { λ t. record { width = t.width; height = t.height; root = t.root } };

    ghost invariant = { λ t. IsLawful M.dist M.most
        (record { width = t.width; height = t.height; root = t.root }) };
}

impl<M: Metric> MTree<M> {
    /// The empty tree of vectors of a width of 1 to 512 bytes. It takes no memory.
    pub fn empty(alloc: Global, width: u32) -> MTree<M>
        requires { IsWidth width }
        ensures { result ≡ record { width = width; height = 0; root = None } }
    {
        MTree {
            alloc,
            width,
            height: 0,
            root: None,
            metric: PhantomData,
        }
    }

    /// The root, none exactly where the tree is empty. A tree has at most 6 levels, and what
    /// [`mtree_node::flatten`], [`mtree_node::height`] and [`mtree_node::retag`] ask of a node
    /// holds of its root.
    pub fn root(&self) -> Option<&Node>
        ensures low { self.now.height ≤ 6 }
        ensures is { option_copied result ≡ self.now.root }
        ensures tree { IfSome result
            (λ n. IsTree M.dist self.now.width (M.most self.now.width) self.now.height n.now) }
        ensures lawful { IsLawful M.dist M.most self.now }
        ensures level { IfSome result (λ n. IsLevel n.now) }
        ensures leveled { IfSome result (λ n. IsLeveled self.now.height n.now) }
    {
        self.root.as_ref()
    }

    /// The number of levels, 0 exactly where the tree is empty.
    pub fn height(&self) -> u32
        ensures is { result ≡ self.now.height }
        ensures empty { (result ≡ 0) ↔ (self.now.root ≡ None) }
    {
        self.height
    }

    /// The tree of a height whose nodes in preorder are the shapes, over the records, with their
    /// width. What it needs, what it answers and what it counts is what [`mtree_node::build`]
    /// does.
    ///
    /// # Errors
    ///
    /// `Bad` with the first place where the list isn't the preorder of a tree of this height over
    /// exactly these records, `Memory` on want of memory.
    pub fn from_shapes<L: Ledger>(
        alloc: Global,
        height: u32,
        shapes: &Shapes,
        records: &Records,
        steps: &mut Steps<L>,
    ) -> Result<MTree<M>, BuildFault>
        requires { CanBeBuilt records.now.width (M.most records.now.width) height shapes.now
            records.now.vectors }
        ensures tree { IfOk result
            (λ t. IsTreeOf M.dist records.now.width (M.most records.now.width) height shapes.now
            records.now.vectors t.root) }
        ensures only { IfOk result
            (λ t. (other : Option PlainNode)
            → IsTreeOf M.dist records.now.width (M.most records.now.width) height shapes.now
            records.now.vectors other → t.root ≡ other) }
        ensures size { IfOk result (λ t. (t.width ≡ records.now.width) × (t.height ≡ height)) }
        ensures contents { IfOk result (λ t. contents t ≡ records.now.vectors) }
        ensures passes { OnOk result
            (first_failing M.dist height shapes.now records.now.vectors ≡ None) }
        ensures bad { (p : Place) → result ≡ Err (Bad p)
            → first_failing M.dist height shapes.now records.now.vectors ≡ Some p }
        ensures no_tree { (p : Place) → result ≡ Err (Bad p) → (root : Option PlainNode)
            → IsTreeOf M.dist records.now.width (M.most records.now.width) height shapes.now
            records.now.vectors root → ⊥ }
        ensures counted { steps.new ≤ steps.old + 8 * map.len records.now.vectors }
    {
        let width = records.width();
        let root = build::<M, L>(alloc, height, shapes, records, steps)?;
        Ok(MTree {
            alloc,
            width,
            height,
            root: unboxed(root),
            metric: PhantomData,
        })
    }

    /// Sets the tags of the nodes, one for each in preorder. It takes no memory.
    pub fn retag(&mut self, tags: &[u32])
        requires tags { IfSome self.old.root (λ n. length tags.now ≡ size self.old.height n) }
        ensures is { self.new ≡ record self.old
            { root = option_map (retagged tags.now self.old.height) self.old.root } }
        ensures contents { contents self.new ≡ contents self.old }
        ensures cost { (centre : List ℕ) (radius : ℕ) → query_cost M.dist self.new centre radius
            ≡ query_cost M.dist self.old centre radius }
    {
        retag_root(&mut self.root, tags);
    }
}

impl<M: Metric> RangeIndex<M> for MTree<M> {
    ghost width = { λ t. t.width };

    ghost contents = { contents };

    ghost cost = { query_cost M.dist };

    ghost inserted = { IsInserted M.dist M.most };

    ghost inserts = { λ before after n v g. (g.width, g.contents) };

    ghost removed = { IsRemoved M.dist M.most };

    ghost removes = { λ before after n v s. (s.width, s.contents) };

    fn range<L: Ledger>(
        &self,
        centre: &Vector,
        eps: u32,
        out: &mut Numbers,
        steps: &mut Steps<L>,
    ) -> Result<(), AllocError> {
        let _ = centre.as_slice();
        // The memory of `out` serves again, so that a query after another takes none.
        let mut numbers = mem::replace(out, Numbers::new(self.alloc)).into_vec();
        numbers.clear();
        let root = self.root.as_ref();
        find_numbers::<M, L>(self.height, root, centre, eps, &mut numbers, steps)?;
        numbers.sort_unstable();
        *out = Numbers::from_vec(numbers);
        Ok(())
    }

    fn insert<L: Ledger>(
        &mut self,
        number: Number,
        vector: &Vector,
        steps: &mut Steps<L>,
    ) -> Result<(), AllocError> {
        let _ = vector.as_slice();
        let height = self.height;
        self.height = 0;
        let root = self.root.take();
        let (root, height) = grow::<M, L>(self.alloc, height, root, number, vector, steps)?;
        self.height = height;
        self.root = Some(root);
        Ok(())
    }

    fn remove<L: Ledger>(
        &mut self,
        number: Number,
        vector: &Vector,
        steps: &mut Steps<L>,
    ) -> Result<bool, AllocError> {
        let _ = vector.as_slice();
        let height = self.height;
        self.height = 0;
        let root = self.root.take();
        let (found, root, height) = shrink::<M, L>(
            self.alloc, height, root, number, vector, steps,
        )?;
        self.height = height;
        self.root = root;
        Ok(found)
    }
}

// Sets the tags below a root, if there is one.
fn retag_root(root: &mut Option<Node>, tags: &[u32])
    requires leveled { IfSome root.old (λ n. (levels : ℕ) × (levels ≤ 6) × IsLeveled levels n) }
    requires tags { IfSome root.old
        (λ n. (levels : ℕ) → IsLeveled levels n → length tags.now ≡ size levels n) }
    ensures is { (levels : ℕ) → IfSome root.old (IsLeveled levels) → root.new
        ≡ option_map (retagged tags.now levels) root.old }
{
    if let Some(root) = root {
        mtree_node::retag(root, tags);
    }
}

fn unboxed(root: Option<Boxed<Node>>) -> Option<Node>
    ensures { result ≡ root }
{
    root.map(Boxed::into_inner)
}

// Puts the numbers of a tree within the radius of the centre into an empty list, in the order of
// the leaves.
fn find_numbers<M: Metric, L: Ledger>(
    height: u32,
    root: Option<&Node>,
    centre: &Vector,
    radius: u32,
    out: &mut Vec<Number>,
    steps: &mut Steps<L>,
) -> Result<(), AllocError>
    requires width { IsWidth (length centre.now) }
    requires centre { AreBytes centre.now }
    requires root { IsRoot M.dist (length centre.now) (M.most (length centre.now)) height
        (option_copied root) }
    requires empty { out.old.items ≡ [] }
    ensures found { OnOk result
        (out.new.items ≡ numbers_within M.dist centre.now radius
        (leaves_of height (option_copied root.entry))) }
    ensures counted { OnOk result
        (steps.new ≡ steps.old + root_cost M.dist height (option_copied root.entry) centre.now
        radius) }
    ensures at_most { steps.new
        ≤ steps.old + root_cost M.dist height (option_copied root.entry) centre.now radius }
{
    match root {
        None => Ok(()),
        Some(root) => search::<M, L>(root, height, None, centre, radius, out, steps),
    }
}

// The root after an insertion, and its height.
fn grow<M: Metric, L: Ledger>(
    alloc: Global,
    height: u32,
    root: Option<Node>,
    number: Number,
    vector: &Vector,
    steps: &mut Steps<L>,
) -> Result<(Node, u32), AllocError>
    requires width { IsWidth (length vector.now) }
    requires root { IsRoot M.dist (length vector.now) (M.most (length vector.now)) height root }
    requires low { height ≤ 6 }
    ensures is { IfOk result (λ x. record
        { width = length vector.now; height = x.1; root = Some x.0 }
        ≡ grown_from M.dist (M.most (length vector.now)) number vector.now (length vector.now)
        height root) }
    ensures counted { steps.new ≤ steps.old + 16384 }
{
    let Some(mut root) = root else {
        return Ok((first_leaf(alloc, number, vector)?, 1));
    };
    match insert_below::<M, L>(alloc, &mut root, height, None, number, vector, steps)? {
        None => Ok((root, height)),
        Some(pair) => Ok((root_over(alloc, pair)?, height + 1)),
    }
}

// A root with one vector.
fn first_leaf(alloc: Global, number: Number, vector: &Vector) -> Result<Node, AllocError>
    requires { IsWidth (length vector.now) }
    ensures { IfOk result (λ n. n
        ≡ Node.Leaf 0 (record { number = number; vector = vector.now; parent = 0 } ∷ [])) }
{
    let mut entries = LeafEntries::new(alloc);
    entries.push(number, 0, vector.as_slice())?;
    Ok(Node::Leaf { tag: 0, entries })
}

// A root above the halves of the one that was split.
fn root_over(alloc: Global, pair: Pair) -> Result<Node, AllocError>
    ensures { IfOk result (λ n. n ≡ Node.Inner 0 (pair.left ∷ pair.right ∷ [])) }
{
    let Pair { left, right } = pair;
    let mut entries = Items::new(alloc);
    entries.push(left)?;
    entries.push(right)?;
    Ok(Node::Inner { tag: 0, entries })
}
