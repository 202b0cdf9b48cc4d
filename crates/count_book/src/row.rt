//! One record's count and anchor, and how each call changes them.

ghost use Rattle.std.specs.Prelude.{◌≡◌, ◌↔◌, ◌<◌, ◌≤◌, IsTrue};
ghost use Rattle.count_book.specs.Counted.{one_more, one_less, offered};

use vec_record::Number;

/// How many neighbours a record has, and the core that it hangs on.
#[derive(Clone, Copy, Drop)]
pub struct Row {
    pub count: u32,
    pub anchor: Option<Number>,
}

impl Row {
    /// Counts one more; true exactly where the count came up to `minpts`.
    #[inline(always)]
    pub(crate) fn raise(&mut self, minpts: u32) -> bool
        ensures row { self.new ≡ one_more self.old }
        ensures value { IsTrue result ↔ ((self.old.count < minpts) × (minpts ≤ self.new.count)) }
        ensures stays { minpts ≤ self.old.count → minpts ≤ self.new.count }
    {
        let below = self.count < minpts;
        self.count = self.count.saturating_add(1);
        below && minpts <= self.count
    }

    /// Counts one less; true exactly where the count fell below `minpts`.
    #[inline(always)]
    pub(crate) fn lower(&mut self, minpts: u32) -> bool
        ensures row { self.new ≡ one_less self.old }
        ensures value { IsTrue result ↔ ((minpts ≤ self.old.count) × (self.new.count < minpts)) }
    {
        let enough = minpts <= self.count;
        self.count = self.count.saturating_sub(1);
        enough && self.count < minpts
    }

    /// Below `minpts`, takes `core` as anchor where there is none or a greater one.
    #[inline(always)]
    pub(crate) fn offer(&mut self, minpts: u32, core: Number)
        ensures { self.new ≡ offered minpts core self.old }
    {
        if self.count < minpts {
            self.anchor = match self.anchor {
                Some(old) => Some(old.min(core)),
                None => Some(core),
            };
        }
    }
}
