//! Body pages read, and taken apart by kind.

ghost use Rattle.std.specs.Prelude.{◌≡◌, ◌+◌, ℕ, List, [], ◌∷◌, ◌++◌, drop, Ok, IfOk, OnOk};
ghost use Rattle.std.specs.Prelude.{MatchResult};
ghost use Rattle.std.specs.List.{AllByRecursion};
ghost use Rattle.page_layout.specs.Heads.{values_of};
ghost use Rattle.page_layout.specs.Bodies.{body_of, IsBody};
ghost use Rattle.store_image.specs.Contents.{kind_of, kinds_of, slots_of, all_slots};
ghost use Rattle.store_image.specs.Contents.{node_page_of, node_pages};
ghost use Rattle.store_image.specs.Loading.{in_page, bodies_in, Fails};
ghost use Rattle.store_image.specs.inside.Reads.{bodies_behind};

use crate::fault::StoreFault;
use crate::params::fault_in;
use node_refs::NodePage;
use page_gate::{Page, Pages};
use page_layout::{Body, Slot, read_body};
use std::alloc::{AllocError, Global};
use vec_record::Params;

/// What body pages hold, by kind: the kind of each page, the slots of the record pages, and the
/// pages as far as the tree is concerned.
#[derive(Drop)]
pub(crate) struct Contents {
    pub kinds: Vec<u8>,
    pub slots: Vec<Option<Slot>>,
    pub nodes: Vec<NodePage>,
}

/// A body page.
fn read_page(alloc: Global, params: &Params, number: u32, page: &Page) -> Result<Body, StoreFault>
    ensures body { MatchResult result (λ b. body_of (values_of params.now) page.now ≡ Ok b)
        (λ e. Fails e (in_page number (body_of (values_of params.now) page.now))) }
    ensures lawful { IfOk result (IsBody (values_of params.now)) }
{
    match read_body(alloc, params, page) {
        Ok(body) => Ok(body),
        Err(fault) => Err(fault_in(number, fault)),
    }
}

/// Adds a page, or says that memory is wanting.
fn push(bodies: &mut Vec<Body>, body: Body) -> Result<(), AllocError>
    ensures { OnOk result (bodies.new.items ≡ bodies.old.items ++ body ∷ []) }
{
    bodies.push(body)?;
    Ok(())
}

/// Reads one more page behind those that were read.
fn read_more(
    alloc: Global,
    params: &Params,
    number: u32,
    page: &Page,
    bodies: &mut Vec<Body>,
) -> Result<(), StoreFault>
    requires { AllByRecursion (IsBody (values_of params.now)) bodies.old.items }
    ensures more { (pages : List (List ℕ))
        → MatchResult result (λ _. bodies_behind (values_of params.now) number (page.now ∷ pages)
        bodies.old.items ≡ bodies_behind (values_of params.now) (number + 1) pages bodies.new.items)
        (λ e. Fails e (bodies_behind (values_of params.now) number (page.now ∷ pages)
        bodies.old.items)) }
    ensures lawful { OnOk result
        (AllByRecursion (IsBody (values_of params.now)) bodies.new.items) }
{
    let body = read_page(alloc, params, number, page)?;
    push(bodies, body)?;
    Ok(())
}

/// All body pages, in their order.
pub(crate) fn read_bodies(
    alloc: Global,
    params: &Params,
    pages: &Pages,
) -> Result<Vec<Body>, StoreFault>
    ensures bodies { MatchResult result
        (λ b. bodies_in (values_of params.now) 2 (drop 1 pages.now.list) ≡ Ok b.items)
        (λ e. Fails e (bodies_in (values_of params.now) 2 (drop 1 pages.now.list))) }
    ensures lawful { IfOk result (λ b. AllByRecursion (IsBody (values_of params.now)) b.items) }
{
    let mut bodies = Vec::new(alloc);
    for number in 2..pages.count() {
        if let Some(page) = pages.page(number) {
            read_more(alloc, params, number, page, &mut bodies)?;
        }
    }
    Ok(bodies)
}

/// Takes one more page.
fn take_body(body: Body, contents: &mut Contents) -> Result<(), AllocError>
    ensures kinds { OnOk result
        (contents.new.kinds.items ≡ contents.old.kinds.items ++ kind_of body ∷ []) }
    ensures slots { OnOk result
        (contents.new.slots.items ≡ contents.old.slots.items ++ slots_of body) }
    ensures nodes { OnOk result
        (contents.new.nodes.items ≡ contents.old.nodes.items ++ node_page_of body ∷ []) }
{
    match body {
        Body::Slots(rows) => {
            let mut rows = rows.into_vec();
            contents.kinds.push(1)?;
            contents.slots.append(&mut rows)?;
            contents.nodes.push(NodePage::Records)?;
        }
        Body::Leaves(leaves) => {
            contents.kinds.push(2)?;
            contents.nodes.push(NodePage::Leaves(leaves))?;
        }
        Body::Inner(rows) => {
            contents.kinds.push(3)?;
            contents.nodes.push(NodePage::Inner(rows))?;
        }
    }
    Ok(())
}

/// What body pages hold, by kind. All that they hold is moved and not copied.
pub(crate) fn take_apart(alloc: Global, bodies: Vec<Body>) -> Result<Contents, AllocError>
    ensures kinds { IfOk result (λ c. c.kinds.items ≡ kinds_of bodies.items) }
    ensures slots { IfOk result (λ c. c.slots.items ≡ all_slots bodies.items) }
    ensures nodes { IfOk result (λ c. c.nodes.items ≡ node_pages bodies.items) }
{
    let mut contents = Contents {
        kinds: Vec::new(alloc),
        slots: Vec::new(alloc),
        nodes: Vec::new(alloc),
    };
    let mut left = bodies;
    left.reverse();
    while let Some(body) = left.pop() {
        take_body(body, &mut contents)?;
    }
    Ok(contents)
}
