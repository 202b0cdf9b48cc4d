//! The parameters of a store, read from its head page.

ghost use Rattle.std.specs.Prelude.{◌≡◌, ◌≢◌, Ok, Err, MatchResult, IfOk, IfErr};
ghost use Rattle.page_layout.specs.Heads.{values_of, plain, IsHead, head_of};
ghost use Rattle.store_image.specs.Loading.{in_page, fault_in, head_in_pages, params_in_pages};
ghost use Rattle.store_image.specs.declared.fault.StoreFault.TheVariants.{Memory};

use crate::fault::StoreFault;
use page_gate::{Page, Pages};
use page_layout::{Head, LayoutFault, read_head};
use vec_record::Params;

/// The fault of a page, with the number of that page.
pub(crate) fn fault_in(page: u32, fault: LayoutFault) -> StoreFault
    ensures { result ≡ fault_in page fault }
{
    match fault {
        LayoutFault::Foreign => StoreFault::Foreign,
        LayoutFault::Damaged { offset } => StoreFault::Damaged { page, offset },
        LayoutFault::Memory => StoreFault::Memory,
    }
}

/// The bytes of page 1 as a head page.
fn head_of(page: &Page) -> Result<Head, StoreFault>
    ensures head { MatchResult result (λ h. in_page 1 (head_of page.now) ≡ Ok (plain h))
        (λ e. in_page 1 (head_of page.now) ≡ Err e) }
    ensures lawful { IfOk result (λ h. IsHead (plain h)) }
    ensures memory { IfErr result (λ e. e ≢ Memory) }
{
    match read_head(page) {
        Ok(head) => Ok(head),
        Err(fault) => Err(fault_in(1, fault)),
    }
}

/// The head page, or why page 1 isn't read. It takes no memory.
pub(crate) fn find_head(pages: &Pages) -> Result<Head, StoreFault>
    ensures head { MatchResult result (λ h. head_in_pages pages.now.list ≡ Ok (plain h))
        (λ e. head_in_pages pages.now.list ≡ Err e) }
    ensures lawful { IfOk result (λ h. IsHead (plain h)) }
    ensures memory { IfErr result (λ e. e ≢ Memory) }
{
    match pages.page(1) {
        Some(page) => head_of(page),
        None => Err(StoreFault::Foreign),
    }
}

/// The parameters of the store: those of page 1. `Foreign` and `Damaged` come exactly where page 1
/// isn't a lawful head page of a known version; it takes no memory.
pub fn read_params(pages: &Pages) -> Result<Params, StoreFault>
    ensures params { MatchResult result (λ p. params_in_pages pages.now.list ≡ Ok (values_of p))
        (λ e. params_in_pages pages.now.list ≡ Err e) }
    ensures memory { IfErr result (λ e. e ≢ Memory) }
{
    match find_head(pages) {
        Ok(head) => Ok(head.params),
        Err(fault) => Err(fault),
    }
}
