//! A page with one inner node, written and read: its entries, or none if the page is free.

ghost use Rattle.std.specs.Prelude.{◌≡◌, ◌≤◌, ◌+◌, ◌++◌, length, take, drop, Ok, IfOk};
ghost use Rattle.std.specs.Prelude.{MatchResult, true};
ghost use Rattle.std.specs.List.{flat_map};
ghost use Rattle.vec_record.specs.Limits.{width_of};
ghost use Rattle.page_gate.specs.Gate.{number_4};
ghost use Rattle.page_layout.specs.Fields.{IsWhy, first_bad};
ghost use Rattle.page_layout.specs.Heads.{values_of};
ghost use Rattle.page_layout.specs.Inner.{inner_row_at, inner_row_fields, inner_rows_fields};
ghost use Rattle.page_layout.specs.Inner.{inner_node_fields, inner_fields, inner_row_in};
ghost use Rattle.page_layout.specs.Inner.{inner_rows_in, inner_of, AreInner, inner_row_bytes};
ghost use Rattle.page_layout.specs.Inner.{inner_page, is_inner_fill};

use crate::fault::LayoutFault;
use crate::field::{first_bad, first_set, is_between, put_words, word_at};
use crate::spelled::is_spelled;
use items::Items;
use mtree_node::InnerShape;
use page_gate::Page;
use std::alloc::{AllocError, Global};
use vec_record::{Params, Vector};

/// Whether there may be so many entries: none in a free page, else 2 to 30.
fn is_fill(fill: u32) -> bool
    ensures is { result ≡ is_inner_fill fill }
    ensures few { result ≡ true → fill ≤ 30 }
{
    fill == 0 || is_between(2, 30, fill)
}

/// The offset of the first field of the entry at `at` that isn't lawful.
fn bad_row(params: &Params, page: &[u8], at: usize) -> Option<u32>
    requires page { length page.now ≡ 16384 }
    requires within { at + 12 + width_of params.now.metric params.now.dim ≤ length page.now }
    ensures { result ≡ first_bad (inner_row_fields (values_of params.now) page.now at) }
{
    let width = params.width();
    let object = &page[at + 12..at + 12 + width as usize];
    let greatest = params.metric.greatest(width);
    let fields = [
        (at as u32, word_at(page, at) != 0),
        (at as u32 + 8, word_at(page, at + 8) <= greatest),
        (at as u32 + 11 + width, is_spelled(params, object)),
    ];
    first_bad(&fields)
}

/// The offset of the first field that isn't lawful, of so many entries.
fn bad_rows(params: &Params, page: &[u8], fill: usize) -> Option<u32>
    requires page { length page.now ≡ 16384 }
    requires few { fill ≤ 30 }
    ensures { result ≡ first_bad (inner_rows_fields (values_of params.now) page.now fill) }
{
    let size = 12 + params.width() as usize;
    for k in 0..fill {
        if let Some(offset) = bad_row(params, page, 16 + size * k) {
            return Some(offset);
        }
    }
    None
}

/// The offset of the first field of the node that isn't lawful.
fn bad_node(params: &Params, page: &[u8]) -> Option<u32>
    requires { length page.now ≡ 16384 }
    ensures { result ≡ first_bad (inner_node_fields (values_of params.now) page.now) }
{
    let fill = word_at(page, 4);
    if !is_fill(fill) {
        return Some(4);
    }
    let end = 16 + (12 + params.width() as usize) * fill as usize;
    first_set(page, 8, 16)
        .or(bad_rows(params, page, fill as usize))
        .or(first_set(page, end, 16384))
}

/// The offset of the first field of a page with an inner node that isn't lawful.
fn bad_inner_field(params: &Params, page: &[u8]) -> Option<u32>
    requires { length page.now ≡ 16384 }
    ensures { result ≡ first_bad (inner_fields (values_of params.now) page.now) }
{
    if page[0] != 3 {
        return Some(0);
    }
    first_set(page, 1, 4).or(bad_node(params, page))
}

/// Reads the entry at `at`.
fn read_row(
    alloc: Global,
    params: &Params,
    page: &[u8],
    at: usize,
) -> Result<(u32, u32, u32, Vector), AllocError>
    requires within { at + 12 + width_of params.now.metric params.now.dim ≤ length page.now }
    ensures { IfOk result (λ row. row
        ≡ inner_row_in (width_of params.now.metric params.now.dim) page.now at) }
{
    let width = params.width() as usize;
    let child = word_at(page, at);
    let parent = word_at(page, at + 4);
    let radius = word_at(page, at + 8);
    let object = Vector::from_slice(alloc, &page[at + 12..at + 12 + width])?;
    Ok((child, parent, radius, object))
}

/// Reads the entries of a page.
fn read_rows(alloc: Global, params: &Params, page: &[u8]) -> Result<InnerShape, AllocError>
    requires page { length page.now ≡ 16384 }
    requires few { number_4 4 page.now ≤ 30 }
    ensures { IfOk result (λ rows. rows
        ≡ inner_rows_in (width_of params.now.metric params.now.dim) page.now) }
{
    let size = 12 + params.width() as usize;
    let mut rows = Items::new(alloc);
    for k in 0..word_at(page, 4) as usize {
        let row = read_row(alloc, params, page, 16 + size * k)?;
        rows.push(row)?;
    }
    Ok(rows)
}

/// Reads the bytes of a page with an inner node.
fn read_page(alloc: Global, params: &Params, page: &[u8]) -> Result<InnerShape, LayoutFault>
    requires { length page.now ≡ 16384 }
    ensures rows { MatchResult result (λ rows. inner_of (values_of params.now) page.now ≡ Ok rows)
        (IsWhy (inner_of (values_of params.now) page.now)) }
    ensures lawful { IfOk result (AreInner (values_of params.now)) }
{
    if let Some(offset) = bad_inner_field(params, page) {
        return Err(LayoutFault::Damaged { offset });
    }
    Ok(read_rows(alloc, params, page)?)
}

/// Reads a page with an inner node: its entries, none if the page is free. `Damaged` comes exactly
/// where a field isn't lawful, with the first such field; the answer is never `Foreign`, and
/// `Memory` where memory is wanting.
pub fn read_inner(alloc: Global, params: &Params, page: &Page) -> Result<InnerShape, LayoutFault>
    ensures rows { MatchResult result (λ rows. inner_of (values_of params.now) page.now ≡ Ok rows)
        (IsWhy (inner_of (values_of params.now) page.now)) }
    ensures lawful { IfOk result (AreInner (values_of params.now)) }
{
    read_page(alloc, params, page.as_slice())
}

/// Writes an entry from the offset on.
fn put_row(out: &mut Page, at: usize, row: &(u32, u32, u32, Vector))
    requires { at + 12 + length row.now.3 ≤ 16384 }
    ensures page { length out.old ≡ 16384 }
    ensures written { out.new ≡ take at out.old ++ inner_row_bytes row.now ++ drop
        (at + 12 + length row.now.3) out.old }
{
    let (child, parent, radius, object) = row;
    put_words(out, at, &[*child, *parent, *radius]);
    out.put(at + 12, object.as_slice());
}

/// Writes entries one behind the other, the first one into its place.
fn put_rows(params: &Params, rows: &[(u32, u32, u32, Vector)], out: &mut Page)
    requires { AreInner (values_of params.now) rows.now }
    ensures page { length out.old ≡ 16384 }
    ensures written { out.new ≡ take 16 out.old ++ flat_map inner_row_bytes rows.now ++ drop
        (inner_row_at (width_of params.now.metric params.now.dim) (length rows.now)) out.old }
{
    // Seen as a slice, a page is known to have its length.
    let _page = out.as_slice();
    let size = 12 + params.width() as usize;
    for k in 0..rows.len() {
        put_row(out, 16 + size * k, &rows[k]);
    }
}

/// Fills a page with an inner node of these entries; no entries give a free page. It takes no
/// memory.
pub fn write_inner(params: &Params, rows: &[(u32, u32, u32, Vector)], out: &mut Page)
    requires { AreInner (values_of params.now) rows.now }
    ensures { out.new ≡ inner_page (width_of params.now.metric params.now.dim) rows.now }
{
    out.clear();
    out.set(0, 3);
    put_words(out, 4, &[rows.len() as u32]);
    put_rows(params, rows, out);
}
