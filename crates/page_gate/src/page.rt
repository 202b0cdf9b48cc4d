//! A page, and lists of pages to be written.

ghost use Rattle.std.specs.Prelude.{◌≡◌, ◌<◌, ◌≤◌, ◌+◌, ℕ, [], ◌∷◌, ◌++◌, length, take, drop};
ghost use Rattle.std.specs.Prelude.{replicate, set, get_or, OnOk, OnErr, IfOk};
ghost use Rattle.vec_record.specs.Vectors.{AreBytes};
ghost use Rattle.std.specs.Prelude.{IsTrue};
ghost use Rattle.site_disk.specs.Causes.{HasCause};
ghost use Rattle.site_disk.specs.Calls.{Stays, Reads};

use site_disk::{Failed, Site};
use std::alloc::{AllocError, Global};
use std::marker::Model;

/// The bytes of a page.
pub const PAGE_BYTES: usize = 16384;

/// A page of a file.
#[derive(Drop)]
pub struct Page {
    bytes: Box<[u8; PAGE_BYTES]>,
}

impl Model for Page {
    ghost use Rattle.std.specs.Prelude.{◌≡◌, List, ℕ, length};

    ghost Value = { List ℕ };

    ghost view = { λ p. p.bytes.value };

    ghost invariant = { λ p. length p.bytes.value ≡ 16384 };
}

impl Page {
    /// A page of zeros.
    pub fn zeros(alloc: Global) -> Result<Page, AllocError>
        ensures length { IfOk result (λ page. length page ≡ 16384) }
        ensures zeros { IfOk result (λ page. (i : ℕ) → get_or page i 0 ≡ 0) }
    {
        let bytes = Box::new(alloc, [0; PAGE_BYTES])?;
        Ok(Page { bytes })
    }

    /// The bytes, from the first on.
    pub fn as_slice(&self) -> &[u8]
        ensures same { result.now ≡ self.now }
        ensures length { length self.now ≡ 16384 }
    {
        self.bytes.as_slice()
    }

    /// Changes one byte.
    pub fn set(&mut self, at: usize, byte: u8)
        requires { at < 16384 }
        ensures { self.new ≡ set self.old at byte }
    {
        self.bytes[at] = byte;
    }

    /// Changes the bytes from `at` on to these.
    pub fn put(&mut self, at: usize, bytes: &[u8])
        requires { at + length bytes.now ≤ 16384 }
        ensures { self.new ≡ take at self.old ++ bytes.now ++ drop (at + length bytes.now)
            self.old }
    {
        self.bytes[at..at + bytes.len()].copy_from_slice(bytes);
    }

    /// Makes all bytes zero.
    pub fn clear(&mut self)
        ensures { self.new ≡ replicate 16384 0 }
    {
        *self.bytes = [0; PAGE_BYTES];
    }

    /// Fills the page from the offset on.
    pub(crate) fn fill_from<T: Site>(&mut self, site: &mut T, at: u64) -> Result<(), Failed>
        ensures cause { HasCause (T.faults site.old) (T.faults site.new) result }
        ensures length { length self.new ≡ 16384 }
        ensures read { IsTrue T.tells → Reads at result self.new (T.state site.old).content }
        ensures told { IsTrue T.tells → Stays (T.state site.old) (T.state site.new) }
    {
        site.read(at, self.bytes.as_mut_slice())
    }
}

/// A page that is to be written.
#[derive(Drop)]
pub struct PageWrite {
    /// The number of the page.
    pub page: u32,
    pub bytes: Page,
}

/// A list of writes.
#[derive(Drop)]
pub struct PageWrites {
    items: Vec<PageWrite>,
}

impl Model for PageWrites {
    ghost use Rattle.std.specs.Prelude.{List};
    ghost use Rattle.page_gate.specs.declared.page.PageWrite.{PageWrite};

    ghost Value = { List PageWrite };

    ghost view = { λ w. w.items.items };
}

impl PageWrites {
    pub fn new(alloc: Global) -> PageWrites
        ensures { result ≡ [] }
    {
        PageWrites {
            items: Vec::new(alloc),
        }
    }

    pub fn push(&mut self, item: PageWrite) -> Result<(), AllocError>
        ensures ok { OnOk result (self.new ≡ self.old ++ item ∷ []) }
        ensures err { OnErr result (self.new ≡ self.old) }
    {
        self.items.push(item)?;
        Ok(())
    }

    pub fn len(&self) -> usize
        ensures { result ≡ length self.now }
    {
        self.items.len()
    }

    pub fn as_slice(&self) -> &[PageWrite]
        ensures { result.now ≡ self.now }
    {
        &self.items
    }

    /// The writes themselves, in their order.
    pub(crate) fn into_items(self) -> Vec<PageWrite>
        ensures { result.items ≡ self }
    {
        self.items
    }
}
