//! Marks of numbers, and lists of them.

ghost use Rattle.std.specs.Prelude.{◌≡◌, [], ◌∷◌, ◌++◌, length, OnOk, OnErr};
ghost use Rattle.std.specs.Ordering.{nat_cmp};
ghost use Rattle.std.specs.FinMap.Entries.{is_sorted};
ghost use lib.Dec.{T};
ghost use Rattle.plain_dbscan.specs.Cases.{mark_at};
ghost use Rattle.plain_dbscan.specs.Texts as text;

use std::alloc::{AllocError, Global};
use std::marker::Model;
use vec_record::Number;

/// What a record is in its clusters: a core or a border of the cluster with this label, or noise.
#[derive(Clone, Copy, Debug, PartialEq, Eq)]
pub enum Mark {
    Core(Number),
    Border(Number),
    Noise,
}

/// Numbers with their marks.
#[derive(Drop)]
pub struct Marks {
    items: Vec<(Number, Mark)>,
}

impl Model for Marks {
    ghost use Rattle.std.specs.Prelude.{List, ℕ};
    ghost use Rattle.plain_dbscan.specs.declared.marks.Mark.{Mark};

    ghost Value = { List (ℕ × Mark) };

    ghost view = { λ m. m.items.items };
}

impl Marks {
    pub fn new(alloc: Global) -> Marks
        ensures { result ≡ [] }
    {
        Marks {
            items: Vec::new(alloc),
        }
    }

    pub fn push(&mut self, item: (Number, Mark)) -> Result<(), AllocError>
        ensures ok { OnOk result (self.new ≡ self.old ++ item ∷ []) }
        ensures err { OnErr result (self.new ≡ self.old) }
    {
        self.items.push(item)?;
        Ok(())
    }

    pub fn len(&self) -> usize
        ensures { result ≡ length self.now }
    {
        self.items.len()
    }

    pub fn as_slice(&self) -> &[(Number, Mark)]
        ensures { result.now ≡ self.now }
    {
        &self.items
    }
}

/// Whether a number with its mark is a core that is its own label. Each cluster has one such core.
pub fn names_cluster(number: Number, mark: Mark) -> bool
    ensures { result ≡ text.names_cluster (number, mark) }
{
    match mark {
        Mark::Core(label) => label == number,
        _ => false,
    }
}

/// The mark of a number in marks by rising number, found by one binary search; `None` exactly where
/// the number is absent.
pub fn find_mark(marks: &[(Number, Mark)], number: Number) -> Option<Mark>
    requires { T (is_sorted nat_cmp marks.now) }
    ensures { result ≡ mark_at marks.now number }
{
    match marks.binary_search_by_key(&number, |&(other, _)| other) {
        Ok(place) => Some(marks[place].1),
        Err(_) => None,
    }
}
