//! What a list of pages says as a store.

ghost use Rattle.std.specs.Prelude.{◌≡◌, ◌≤◌, ◌+◌, ◌*◌, Ok, Err, Some, None, IfOk};
ghost use Rattle.std.specs.Prelude.{IfErr, OnOk, MatchResult};
ghost use Rattle.std.specs.List.{AllByRecursion};
ghost use Rattle.std.specs.FinMap as maps;
ghost use Rattle.vec_record.specs.Limits.{width_of};
ghost use Rattle.vec_record.specs.Spelled.{is_spelled};
ghost use Rattle.mtree_index.specs.Tree.{contents};
ghost use Rattle.tree_objects.specs.Laws.{AllPass};
ghost use Rattle.stored_tree.specs.Reading.{Read, Fails as TreeFails};
ghost use Rattle.stored_lines.specs.Lines.{first_loose, rows_of, labels_of};
ghost use Rattle.page_layout.specs.Heads.{Values, IsHead, values_of, plain};
ghost use Rattle.store_image.specs.Images.{image_with};
ghost use Rattle.store_image.specs.Loading.{load_of, params_in_pages, count_said, Fails, in_tree};
ghost use Rattle.store_image.specs.Loading.{tree_on};
ghost use Rattle.store_image.specs.Placing.{CanStand, IsPaged, IsKept};
ghost use Rattle.store_image.specs.inside.Reads.{tied_at, ties, remaining, AreSorted};

use crate::contents::read_bodies;
use crate::fault::StoreFault;
use crate::finding::{slot_fault, used_slot};
use crate::loaded::{Loaded, Places};
use crate::params::find_head;
use crate::sorted::{Sorted, sort_bodies};
use kept_clusters::Clusters;
use mtree_index::MTree;
use page_gate::Pages;
use page_layout::Head;
use std::alloc::Global;
use std::sync::ledger::Ledger;
use stored_lines::laws::books_have_form;
use stored_lines::{Books, LinesFault, Loose, books};
use stored_tree::{TreeFault, read_tree};
use vec_record::{Metric, Params, Steps};

/// The fault of a loose line, at its slot.
fn loose_fault(params: &Params, parts: &Sorted, loose: Loose) -> StoreFault
    requires { AreSorted (values_of params.now) parts.now }
    ensures { Err result ≡ tied_at (values_of params.now) parts.now.kinds.items
        parts.now.numbers.items (Some loose) }
{
    let (place, field) = match loose {
        Loose::Anchor(place) => (place, 8),
        Loose::Label(place) => (place, 12),
    };
    slot_fault(
        params,
        &parts.kinds,
        used_slot(&parts.numbers, place),
        field,
    )
}

/// The books of the lines, or the fault of the first that is loose.
fn books_of(alloc: Global, params: &Params, parts: &Sorted) -> Result<Books, StoreFault>
    requires { AreSorted (values_of params.now) parts.now }
    ensures counts { IfOk result (λ b. b.counts
        ≡ record { minpts = params.now.minpts; rows = rows_of parts.now.lines.items }) }
    ensures labels { IfOk result
        (λ b. b.labels ≡ labels_of params.now.minpts parts.now.lines.items) }
    ensures ok { OnOk result (first_loose params.now.minpts parts.now.lines.items ≡ None) }
    ensures err { IfErr result (λ e. Fails e (ties (values_of params.now) parts.now.kinds.items
        parts.now.numbers.items parts.now.lines.items)) }
{
    match books(alloc, params.minpts, &parts.lines) {
        Ok(books) => Ok(books),
        Err(LinesFault::Loose(loose)) => Err(loose_fault(params, parts, loose)),
        Err(LinesFault::Memory) => Err(StoreFault::Memory),
    }
}

/// The same fault of a store as of its tree.
fn tree_fault(fault: TreeFault) -> StoreFault
    ensures { (read : Read) → TreeFails fault read → Fails result (in_tree read) }
{
    match fault {
        TreeFault::Damaged { page, offset } => StoreFault::Damaged { page, offset },
        TreeFault::Memory => StoreFault::Memory,
    }
}

/// The tree of the pages, over exactly the records.
fn tree_of<M: Metric, L: Ledger>(
    alloc: Global,
    head: &Head,
    parts: &Sorted,
    steps: &mut Steps<L>,
) -> Result<MTree<M>, StoreFault>
    requires kind { head.now.params.metric ≡ M.KIND }
    requires lawful { IsHead (plain head.now) }
    requires parts { AreSorted (plain head.now).values parts.now }
    requires count { maps.len parts.now.records.vectors ≡ head.now.count }
    ensures tree { MatchResult result
        (λ t. tree_on (plain head.now) parts.now.nodes.items parts.now.records.vectors ≡ Ok t)
        (λ e. Fails e
        (tree_on (plain head.now) parts.now.nodes.items parts.now.records.vectors)) }
    ensures contents { IfOk result (λ t. contents t ≡ parts.now.records.vectors) }
    ensures width { IfOk result (λ t. t.width ≡ parts.now.records.width) }
    ensures spelled { IfOk result
        (AllPass (is_spelled head.now.params.metric head.now.params.dim)) }
    ensures counted { steps.new ≤ steps.old + 8 * maps.len parts.now.records.vectors }
{
    let _ = parts.records.width();
    let tree = read_tree::<M, L>(
        alloc,
        head.height,
        head.root,
        &parts.nodes,
        &parts.records,
        steps,
    );
    match tree {
        Ok(tree) => Ok(tree),
        Err(fault) => Err(tree_fault(fault)),
    }
}

/// The store that a head and the parts of its body pages are, or the first check that fails.
fn take_state<M: Metric, L: Ledger>(
    alloc: Global,
    head: Head,
    parts: Sorted,
    steps: &mut Steps<L>,
) -> Result<Loaded<M>, StoreFault>
    requires kind { head.params.metric ≡ M.KIND }
    requires lawful { IsHead (plain head) }
    requires parts { AreSorted (plain head).values parts }
    ensures loaded { MatchResult result (λ s. remaining (plain head) parts
        ≡ Ok (image_with (plain s.head) s.records s.clusters))
        (λ e. Fails e (remaining (plain head) parts)) }
    ensures head { IfOk result (λ s. s.head ≡ head) }
    ensures kinds { IfOk result (λ s. s.places.kinds.items ≡ parts.kinds.items) }
    ensures numbers { IfOk result (λ s. s.places.numbers.items ≡ parts.numbers.items) }
    ensures standing { IfOk result
        (λ s. AllByRecursion (CanStand (plain s.head).values) (maps.entries s.records.vectors)) }
    ensures width { IfOk result
        (λ s. s.records.width ≡ width_of s.head.params.metric s.head.params.dim) }
    ensures few { IfOk result (λ s. maps.len s.records.vectors ≤ s.head.params.cap) }
    ensures kept { IfOk result (λ s. IsKept (plain s.head).values s.records s.clusters) }
    ensures counted { IfOk result
        (λ s. steps.new ≤ steps.old + 8 * maps.len s.records.vectors) }
    ensures bounded { steps.new ≤ steps.old + 8 * head.count }
{
    if parts.lines.len() != head.count as usize {
        return Err(StoreFault::Damaged {
            page: 1,
            offset: 32,
        });
    }
    let books = books_of(alloc, &head.params, &parts)?;
    let tree = tree_of::<M, L>(alloc, &head, &parts, steps)?;
    books_have_form();
    Ok(Loaded {
        head,
        records: parts.records,
        clusters: Clusters::from_parts(alloc, head.params.eps, tree, books.counts, books.labels),
        places: Places {
            kinds: parts.kinds,
            numbers: parts.numbers,
        },
    })
}

/// What a list of pages says as a store: its head, its records, what is kept of their clusters, and
/// where they lie. The refusal is the first check that fails, with its page and offset. It computes
/// at most eight distances for each record; the vectors are moved and not copied.
pub fn load<M: Metric, L: Ledger>(
    alloc: Global,
    pages: &Pages,
    steps: &mut Steps<L>,
) -> Result<Loaded<M>, StoreFault>
    requires kind { (v : Values) → params_in_pages pages.now.list ≡ Ok v → v.metric ≡ M.KIND }
    ensures loaded { MatchResult result (λ s. load_of pages.now.list
        ≡ Ok (image_with (plain s.head) s.records s.clusters))
        (λ e. Fails e (load_of pages.now.list)) }
    ensures paged { IfOk result (λ s. IsPaged (plain s.head) s.places pages.now.list) }
    ensures standing { IfOk result
        (λ s. AllByRecursion (CanStand (plain s.head).values) (maps.entries s.records.vectors)) }
    ensures width { IfOk result
        (λ s. s.records.width ≡ width_of s.head.params.metric s.head.params.dim) }
    ensures few { IfOk result (λ s. maps.len s.records.vectors ≤ s.head.params.cap) }
    ensures kept { IfOk result (λ s. IsKept (plain s.head).values s.records s.clusters) }
    ensures counted { IfOk result
        (λ s. steps.new ≤ steps.old + 8 * maps.len s.records.vectors) }
    ensures bounded { steps.new ≤ steps.old + 8 * count_said pages.now.list }
{
    let head = find_head(pages)?;
    let bodies = read_bodies(alloc, &head.params, pages)?;
    let parts = sort_bodies(alloc, &head.params, bodies)?;
    take_state(alloc, head, parts, steps)
}
