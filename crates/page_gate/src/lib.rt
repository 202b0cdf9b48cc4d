//! A file of pages that survives crashes.
//!
//! It stands on `site_disk`. A file is born behind a gate byte, changes by commits that write their
//! pages twice, and opens after a crash at any moment with the page list before or after the commit
//! that was cut off: [`birth`], [`commit`] and [`open_pages`] carry that promise. Of what the pages
//! hold it knows the number of pages alone.
#![tactic(auto)]

pub mod fault;
mod gate;
mod new_store;
mod opening;
pub mod page;
pub mod pages;
mod redo;
mod steps;

pub use fault::OpenFault;
pub use new_store::birth;
pub use opening::{is_blank, open_pages};
pub use page::{Page, PageWrite, PageWrites};
pub use pages::Pages;
pub use redo::commit;

#[cfg(test)]
mod tests;
