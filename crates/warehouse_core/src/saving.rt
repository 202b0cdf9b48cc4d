//! A batch that is taken in is saved, and its receipt given out.
ghost use Rattle.std.specs.Prelude.{◌≡◌, ◌≤◌, ◌+◌, ◌++◌, ℕ, List, false, Ok, Err, IsTrue, IfOk, IfErr, OnOk};
ghost use Rattle.std.specs.Prelude.{OnErr};
ghost use Rattle.site_disk.specs.Causes.{Rose};
ghost use Rattle.site_disk.specs.State.{Joins};
ghost use Rattle.page_gate.specs.Promises.{Holds};
ghost use Rattle.page_layout.specs.Heads.{plain};
ghost use Rattle.vec_record.specs.Distance.{distance_of};
ghost use Rattle.stored_lines.specs.Laws.{AreHung};
ghost use Rattle.vec_record.specs.Held.{Held};
ghost use Rattle.kept_clusters.specs.Kept.{Stand};
ghost use Rattle.store_image.specs.Images.{image_with};
ghost use Rattle.store_image.specs.Loading.{load_of};
ghost use Rattle.store_image.specs.Placing.{IsPaged, IsKept, CanSave, saved_on, image_on};
ghost use Rattle.warehouse_core.specs.States.{StandBy};
ghost use Rattle.warehouse_core.specs.declared.refusal.Refusal.TheVariants.{SiteFault, Memory};
ghost use Rattle.warehouse_core.specs.Applying.{is_numbered};
ghost use Rattle.warehouse_core.specs.Inside.{Saves};

use crate::refusal::Refusal;
use page_gate::{Pages, commit};
use site_disk::Site;
use std::alloc::{AllocError, Global};
use store_image::laws::{due_lines_stand, loads_are_stores, standing_are_hung};
use store_image::{Loaded, plan_save};
use vec_record::{Bytes, Metric};

/// A text with more behind it.
fn joined(alloc: Global, text: &[u8], more: &[u8]) -> Result<Bytes, AllocError>
    ensures { IfOk result (λ both. both ≡ text.now ++ more.now) }
{
    let mut both = Bytes::new(alloc);
    both.append(text)?;
    both.append(more)?;
    Ok(both)
}

/// Brings the store to the records and clusters as they are now, with one batch more, and appends the
/// receipt to `out`. All memory is taken before the first write.
pub(crate) fn save<M: Metric, T: Site>(
    alloc: Global,
    site: &mut T,
    pages: &mut Pages,
    state: &mut Loaded<M>,
    receipt: &[u8],
    out: &mut Bytes,
) -> Result<(), Refusal>
    requires kind { state.old.head.params.metric ≡ M.KIND }
    requires paged { IsPaged (plain state.old.head) state.old.places pages.old.list }
    requires can { CanSave (plain state.old.head) state.old.records }
    requires kept { IsKept (plain state.old.head).values state.old.records state.old.clusters }
    requires ready { IsTrue T.tells → Holds pages.old.list (T.state site.old) }
    ensures pages { OnOk result (pages.new.list ≡ saved_on (plain state.old.head) pages.old.list
        state.old.records.vectors state.old.clusters) }
    ensures image { OnOk result (image_with (plain state.new.head) state.new.records
        state.new.clusters ≡ image_on (plain state.old.head) pages.old.list state.old.records
        state.old.clusters) }
    ensures paged { OnOk result (IsPaged (plain state.new.head) state.new.places pages.new.list) }
    ensures kept { OnOk result
        (IsKept (plain state.new.head).values state.new.records state.new.clusters) }
    ensures stands { OnOk result ((dist : List ℕ → List ℕ → ℕ) (records : Held)
        → Stand dist records state.old.clusters → Stand dist records state.new.clusters) }
    ensures loads { OnOk result (AreHung state.old.clusters.counts → load_of pages.new.list
        ≡ Ok (image_with (plain state.new.head) state.new.records state.new.clusters)) }
    ensures text { OnOk result (out.new ≡ out.old ++ receipt.now) }
    ensures kept_text { OnErr result (out.new ≡ out.old) }
    ensures err { IfErr result (λ e. is_numbered e ≡ false) }
    ensures unwritten { result ≡ Err Memory → site.new ≡ site.old }
    ensures fault { result ≡ Err SiteFault → Rose (T.faults site.old) (T.faults site.new) }
    ensures later { T.faults site.old ≤ T.faults site.new }
    ensures joins { IsTrue T.tells → Joins (T.state site.old) (T.state site.new) }
    ensures said { IsTrue T.tells → (T.state site.new).said ≡ (T.state site.old).said }
    ensures ready { IsTrue T.tells → OnOk result (Holds pages.new.list (T.state site.new)) }
    ensures told { IsTrue T.tells → StandBy (distance_of state.old.head.params.metric)
        (plain state.old.head).values state.old.records state.old.clusters
        → Saves pages.old.list (plain state.old.head).values state.old.records.vectors
        (state.old.head.batches + 1) pages.new.list result (T.state site.old) (T.state site.new) }
{
    loads_are_stores();
    due_lines_stand();
    standing_are_hung();
    let text = joined(alloc, out.as_slice(), receipt)?;
    let writes = plan_save(alloc, pages, state)?;
    commit(site, pages, writes)?;
    *out = text;
    Ok(())
}
