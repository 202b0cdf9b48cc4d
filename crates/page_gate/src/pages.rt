//! The pages of an open file.

ghost use Rattle.std.specs.Prelude.{◌≡◌, ◌≤◌, ◌<◌, ◌+◌, ◌-◌, ◌^◌, ℕ, Bool, leb, ltb, ◌&&◌, cond};
ghost use Rattle.std.specs.Prelude.{[], ◌∷◌, ◌++◌, length, get_or, Option, option_map, OnOk, OnErr};
ghost use Rattle.std.specs.Prelude.{MatchOption, ◌⊎◌};
ghost use Rattle.page_gate.specs.Writes.{pairs, put_page, written, new_count, IsPlan};

use crate::page::{Page, PageWrite, PageWrites};
use std::alloc::{AllocError, Global};
use std::marker::Model;

/// The pages of a file from page 1 on, and the room for more.
#[derive(Drop)]
pub struct Pages {
    pages: Vec<Page>,
}

impl Model for Pages {
    ghost use Rattle.std.specs.Prelude.{◌-◌, ◌+◌, ◌<◌, ◌^◌, length, vec_len, vec_capacity};
    ghost use Rattle.page_gate.specs.Room.{Room};

    ghost Value = { Room };

    ghost view = { λ p. record
        { list = p.pages.items; spare = vec_capacity p.pages - vec_len p.pages } };

    ghost invariant = { λ p. length p.pages.items + 1 < 2 ^ 32 };
}

impl Pages {
    /// No pages.
    pub fn new(alloc: Global) -> Pages
        ensures { result.list ≡ [] }
    {
        Pages {
            pages: Vec::new(alloc),
        }
    }

    /// Takes one page behind the last.
    pub(crate) fn push(&mut self, page: Page) -> Result<(), AllocError>
        requires { length self.old.list + 2 < 2 ^ 32 }
        ensures { OnOk result (self.new.list ≡ self.old.list ++ page ∷ []) }
    {
        self.pages.push(page)?;
        Ok(())
    }

    /// The number of pages, page 0 being one of them.
    pub fn count(&self) -> u32
        ensures { result ≡ length self.now.list + 1 }
    {
        self.pages.len() as u32 + 1
    }

    /// A page by its number, from 1 on.
    pub fn page(&self, page: u32) -> Option<&Page>
        ensures { MatchOption result ((page ≡ 0) ⊎ (length self.now.list < page))
            (λ found. (1 ≤ page) × (page ≤ length self.now.list)
            × (found.now ≡ get_or self.now.list (page - 1) [])) }
    {
        if page == 0 {
            return None;
        }
        self.pages.get(page as usize - 1)
    }

    /// Makes room for so many more pages.
    pub fn reserve(&mut self, more: usize) -> Result<(), AllocError>
        ensures same { self.new.list ≡ self.old.list }
        ensures ok { OnOk result (more ≤ self.new.spare) }
    {
        self.pages.reserve(more)
    }

    /// For how many more pages there is room.
    pub fn spare(&self) -> usize
        ensures { result ≡ self.now.spare }
    {
        self.pages.capacity() - self.pages.len()
    }

    /// Takes a page into its place, or behind the last.
    fn take(&mut self, write: PageWrite)
        requires number { 1 ≤ write.page }
        requires next { write.page ≤ length self.old.list + 1 }
        requires room { length self.old.list < write.page → 0 < self.old.spare }
        requires count { write.page + 1 < 2 ^ 32 }
        ensures list { self.new.list ≡ put_page write.page write.bytes self.old.list }
        ensures spare { length self.old.list + self.old.spare
            ≤ length self.new.list + self.new.spare }
    {
        let at = write.page as usize - 1;
        if at < self.pages.len() {
            self.pages[at] = write.bytes;
        } else {
            let _ = self.pages.push(write.bytes);
        }
    }

    /// Takes the pages of the writes into their places or behind the last.
    pub(crate) fn take_all(&mut self, writes: PageWrites)
        requires plan { IsPlan self.old.list (pairs writes) }
        requires room { new_count (pairs writes) ≤ length self.old.list + 1 + self.old.spare }
        requires count { new_count (pairs writes) < 2 ^ 32 }
        ensures list { self.new.list ≡ written self.old.list (pairs writes) }
    {
        let mut items = writes.into_items();
        items.reverse();
        while let Some(write) = items.pop() {
            self.take(write);
        }
    }
}
