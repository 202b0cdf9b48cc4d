//! The word `init`.
ghost use Rattle.std.specs.Prelude.{◌≡◌, ◌≤◌, ◌++◌, ◌⊎◌, IsTrue, IfOk, false, codes};
ghost use Rattle.site_disk.specs.Causes.{Rose};
ghost use Rattle.site_disk.specs.State.{Safe};
ghost use Rattle.page_gate.specs.Gate.{is_blank as has_no_store};
ghost use Rattle.page_gate.specs.Promises.{Holds, IsUnborn};
ghost use Rattle.page_layout.specs.Heads.{values_of, head_page};
ghost use Rattle.session_desk.specs.Statuses.{is_fault};
ghost use Rattle.session_desk.specs.Births.{new_head, new_pages, birth_due, IsBirthMoment, IsBorn};
ghost use Rattle.session_desk.specs.Bearing.{IsBearing};

use crate::saying::say;
use crate::status::Status;
use page_gate::{Page, birth, is_blank};
use page_layout::Head;
use page_layout::head::write_head;
use site_disk::Site;
use std::alloc::{AllocError, Global};
use vec_record::Params;

/// The head page of a new store.
fn make_first_page(alloc: Global, params: &Params) -> Result<Page, AllocError>
    ensures { IfOk result (λ page. page ≡ head_page (new_head (values_of params.now))) }
{
    let mut page = Page::zeros(alloc)?;
    let head = Head {
        pages: 2,
        version: 1,
        params: *params,
        batches: 0,
        count: 0,
        root: 0,
        height: 0,
    };
    write_head(&head, &mut page);
    Ok(page)
}

/// Makes a store of a blank file, and says so.
fn bear<T: Site>(alloc: Global, params: &Params, site: &mut T) -> Status
    requires { IsTrue T.tells → IsUnborn (T.state site.old) }
    ensures moments { IsTrue T.tells
        → Safe (T.state site.old) (T.state site.new)
        (IsBearing (values_of params.now) (T.state site.old)) }
    ensures text { IsTrue T.tells → result ≡ Status.Fine → (T.state site.new).said
        ≡ (T.state site.old).said ++ codes "born\n" }
    ensures holds { IsTrue T.tells → result ≡ Status.Fine
        → Holds (new_pages (values_of params.now)) (T.state site.new) }
    ensures status { (result ≡ Status.Fine) ⊎ (result ≡ Status.SiteFault)
        ⊎ (result ≡ Status.Memory) }
    ensures fault { result ≡ Status.SiteFault → Rose (T.faults site.old) (T.faults site.new) }
    ensures later { T.faults site.old ≤ T.faults site.new }
{
    let Ok(first) = make_first_page(alloc, params) else {
        return Status::Memory;
    };
    match birth(site, &first) {
        Ok(()) => say(site, Status::Fine, b"born\n"),
        Err(_) => Status::SiteFault,
    }
}

/// Makes a store where the file is blank, and says so, or says that there is one.
pub fn init<T: Site>(alloc: Global, params: &Params, site: &mut T) -> Status
    ensures moments { IsTrue T.tells
        → Safe (T.state site.old) (T.state site.new)
        (IsBirthMoment (values_of params.now) (T.state site.old)) }
    ensures status { IsTrue T.tells → is_fault result ≡ false → result
        ≡ (birth_due (has_no_store (T.state site.old).content)).status }
    ensures text { IsTrue T.tells → is_fault result ≡ false → (T.state site.new).said
        ≡ (T.state site.old).said ++ (birth_due (has_no_store (T.state site.old).content)).text }
    ensures born { IsTrue T.tells
        → IsBorn (values_of params.now) result (T.state site.old) (T.state site.new) }
    ensures answers { (result ≡ Status.Fine) ⊎ (result ≡ Status.Exists)
        ⊎ (result ≡ Status.SiteFault) ⊎ (result ≡ Status.Memory) }
    ensures fault { result ≡ Status.SiteFault → Rose (T.faults site.old) (T.faults site.new) }
    ensures later { T.faults site.old ≤ T.faults site.new }
{
    match is_blank(site) {
        Ok(true) => bear(alloc, params, site),
        Ok(false) => say(site, Status::Exists, b"store exists\n"),
        Err(_) => Status::SiteFault,
    }
}
