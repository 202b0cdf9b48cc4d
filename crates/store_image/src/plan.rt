//! Which pages a save changes.

ghost use Rattle.std.specs.Prelude.{◌≡◌, ◌≤◌, ◌+◌, ◌-◌, ◌++◌, ℕ, List, length, not, Ok};
ghost use Rattle.std.specs.Prelude.{IfOk, OnOk, OnErr};
ghost use Rattle.std.specs.List.{AllByRecursion};
ghost use Rattle.vec_record.specs.Held.{Held};
ghost use Rattle.page_layout.specs.Heads.{plain, IsHead};
ghost use Rattle.page_layout.specs.Bodies.{IsBody};
ghost use Rattle.page_gate.specs.Writes.{pairs, written, new_count, IsPlan};
ghost use Rattle.kept_clusters.specs.Kept.{Stand};
ghost use Rattle.stored_lines.specs.Laws.{AreHung};
ghost use Rattle.store_image.specs.Images.{image_with};
ghost use Rattle.store_image.specs.Loading.{load_of};
ghost use Rattle.store_image.specs.Placing.{writes_from, saved_on, image_on, IsPaged, IsKept};
ghost use Rattle.store_image.specs.Placing.{CanSave};
ghost use Rattle.store_image.specs.inside.Saves.{is_as_was, one_write, next_bodies, next_pages};

use crate::filling::{Done, fill_body};
use crate::laws::heads_count_pages;
use crate::laws_saved::{saved_are_lawful, saved_are_read, saved_load};
use crate::layout::{Next, next_places};
use crate::loaded::{Loaded, Places};
use node_places::laws::records_stand;
use page_gate::{Page, PageWrite, PageWrites, Pages};
use page_layout::write_head;
use std::alloc::{AllocError, Global};
use std::mem;
use tree_layout::Layout;
use tree_layout::laws::layouts_are_sized;
use tree_objects::laws::tags_keep;
use vec_record::Metric;

/// Whether a page isn't the one that stands there, or is new.
fn is_changed(pages: &Pages, number: u32, page: &Page) -> bool
    requires { 1 ≤ number }
    ensures { result ≡ not (is_as_was pages.now.list (number - 1) page.now) }
{
    match pages.page(number) {
        Some(was) => was.as_slice() != page.as_slice(),
        None => true,
    }
}

/// Takes a page into the writes where it is changed. Only then is a new one made to be filled next.
fn keep_changed(
    alloc: Global,
    pages: &Pages,
    number: u32,
    page: &mut Page,
    writes: &mut PageWrites,
) -> Result<(), AllocError>
    requires { 1 ≤ number }
    ensures { OnOk result (pairs writes.new
        ≡ pairs writes.old ++ one_write 1 pages.now.list (number - 1) page.old) }
{
    if is_changed(pages, number, page) {
        let bytes = mem::replace(page, Page::zeros(alloc)?);
        writes.push(PageWrite {
            page: number,
            bytes,
        })?;
    }
    Ok(())
}

/// The writes that lead to the pages that come next.
fn plan_pages<M: Metric>(
    alloc: Global,
    pages: &Pages,
    state: &Loaded<M>,
    next: &Next,
) -> Result<PageWrites, AllocError>
    requires head { IsHead (plain next.now.head) }
    requires count { next.now.head.pages ≡ 2 + length next.now.laid.kinds.items }
    requires bodies { AllByRecursion (IsBody (plain state.now.head).values)
        (next_bodies (plain state.now.head).values next.now state.now.records.vectors
        state.now.clusters) }
    ensures { IfOk result (λ w. pairs w ≡ writes_from 1 pages.now.list
        (next_pages (plain state.now.head).values next.now state.now.records.vectors
        state.now.clusters)) }
{
    let mut writes = PageWrites::new(alloc);
    let mut page = Page::zeros(alloc)?;
    write_head(&next.head, &mut page);
    keep_changed(alloc, pages, 1, &mut page, &mut writes)?;
    let mut done = Done {
        slots: 0,
        leaves: 0,
        inners: 0,
    };
    for number in 2..next.head.pages {
        let kind = next.laid.kinds[number as usize - 2];
        fill_body(state, next, kind, &mut done, &mut page);
        keep_changed(alloc, pages, number, &mut page, &mut writes)?;
    }
    Ok(writes)
}

/// Gives the records of a state their slots and the nodes of their tree their places, and plans the
/// pages that a commit then has to write. The pages must be those of the state's head and places,
/// and room is made in them for the new ones. After Ok the state's head and places, and the tags of
/// its tree, are those of the pages after the commit, and all else of it is as before.
pub fn plan_save<M: Metric>(
    alloc: Global,
    pages: &mut Pages,
    state: &mut Loaded<M>,
) -> Result<PageWrites, AllocError>
    requires kind { state.old.head.params.metric ≡ M.KIND }
    requires paged { IsPaged (plain state.old.head) state.old.places pages.old.list }
    requires can { CanSave (plain state.old.head) state.old.records }
    requires kept { IsKept (plain state.old.head).values state.old.records state.old.clusters }
    ensures same { pages.new.list ≡ pages.old.list }
    ensures plan { IfOk result (λ w. IsPlan pages.old.list (pairs w)) }
    ensures room { IfOk result
        (λ w. new_count (pairs w) ≤ length pages.old.list + 1 + pages.new.spare) }
    ensures writes { IfOk result (λ w. pairs w ≡ writes_from 1 pages.old.list
        (saved_on (plain state.old.head) pages.old.list state.old.records.vectors
        state.old.clusters)) }
    ensures written { IfOk result (λ w. written pages.old.list (pairs w)
        ≡ saved_on (plain state.old.head) pages.old.list state.old.records.vectors
        state.old.clusters) }
    ensures image { OnOk result (image_with (plain state.new.head) state.new.records
        state.new.clusters ≡ image_on (plain state.old.head) pages.old.list state.old.records
        state.old.clusters) }
    ensures loads { OnOk result (AreHung state.old.clusters.counts
        → load_of (saved_on (plain state.old.head) pages.old.list state.old.records.vectors
        state.old.clusters) ≡ Ok (image_with (plain state.new.head) state.new.records
        state.new.clusters)) }
    ensures paged { OnOk result (IsPaged (plain state.new.head) state.new.places
        (saved_on (plain state.old.head) pages.old.list state.old.records.vectors
        state.old.clusters)) }
    ensures kept { OnOk result
        (IsKept (plain state.new.head).values state.new.records state.new.clusters) }
    ensures stands { OnOk result ((dist : List ℕ → List ℕ → ℕ) (records : Held)
        → Stand dist records state.old.clusters → Stand dist records state.new.clusters) }
    ensures err { OnErr result (state.new ≡ state.old) }
{
    heads_count_pages();
    saved_are_lawful();
    saved_are_read();
    saved_load();
    layouts_are_sized();
    tags_keep();
    records_stand();
    let next = next_places(alloc, pages, state)?;
    let count = next.head.pages as usize;
    pages.reserve(count - pages.count() as usize)?;
    let writes = plan_pages(alloc, pages, state, &next)?;
    let Next {
        head,
        numbers,
        shapes: _,
        laid,
    } = next;
    let Layout {
        leaves: _,
        inners: _,
        kinds,
        refs,
    } = laid;
    state.clusters.retag(&refs);
    state.head = head;
    state.places = Places { kinds, numbers };
    Ok(writes)
}
