//! What an index by distance promises.

ghost use Rattle.std.specs.Prelude.{◌≡◌, ℕ, ◌+◌, ◌<◌, ◌≤◌, ◌↔◌, List, length, None, Some, Ok, OnOk};
ghost use Rattle.std.specs.Prelude.{IfOk, IsTrue, true, false};
ghost use Rattle.std.specs.FinMap as map;
ghost use Rattle.vec_record.specs.Vectors.{IsWidth};
ghost use Rattle.vec_record.specs.Held.{Rows};
ghost use Rattle.vec_record.specs.Held.{HaveWidth};
ghost use Rattle.plain_dbscan.specs.Index.{near};

use std::alloc::AllocError;
use std::sync::ledger::Ledger;
use vec_record::{Metric, Number, Numbers, Steps, Vector};

/// Vectors of one width under numbers, searched by distance.
///
/// The width is 1 to 512, no call changes it, and each vector that the index holds has it.
pub trait RangeIndex<M: Metric> {
    /// The bytes of a vector.
    ghost width: { Self → ℕ };

    /// The vectors by their numbers.
    ghost contents: { Self → Rows };

    /// How many distances a query computes, by its centre and radius.
    ghost cost: { Self → List ℕ → ℕ → ℕ };

    /// An index before and after an insertion of a number and a vector.
    ghost inserted: { Self → Self → ℕ → List ℕ → Type 0 };

    /// An index before and after a removal of a number and its vector.
    ghost removed: { Self → Self → ℕ → List ℕ → Type 0 };

    /// Gives in `out`, in place of what it held, exactly the numbers within `eps` of the centre,
    /// rising.
    ///
    /// The centre has the index's width. After an `Err` `out` holds no stated numbers.
    fn range<L: Ledger>(
        &self,
        centre: &Vector,
        eps: u32,
        out: &mut Numbers,
        steps: &mut Steps<L>,
    ) -> Result<(), AllocError>
        requires width { length centre.now ≡ width self.now }
        ensures found { OnOk result (out.new ≡ near M.dist (contents self.now) centre.now eps) }
        ensures counted { OnOk result (steps.new ≡ steps.old + cost self.now centre.now eps) }
        ensures at_most { steps.new ≤ steps.old + cost self.now centre.now eps }
        ensures lawful_width { IsWidth (width self.now) }
        ensures vectors { HaveWidth (width self.now) (contents self.now) };

    /// Adds a pair. It needs fewer than 200,000 pairs, an absent number and a vector of the width.
    ///
    /// After an `Err` the index stands for no stated pairs.
    fn insert<L: Ledger>(
        &mut self,
        number: Number,
        vector: &Vector,
        steps: &mut Steps<L>,
    ) -> Result<(), AllocError>
        requires width { length vector.now ≡ width self.old }
        requires absent { map.get (contents self.old) number ≡ None }
        requires room { map.len (contents self.old) < 200000 }
        ensures inserted { OnOk result (inserted self.old self.new number vector.now) }
        ensures same_width { width self.new ≡ width self.old }
        ensures lawful_width { IsWidth (width self.old) }
        ensures vectors { HaveWidth (width self.old) (contents self.old) }
        ensures counted { steps.new ≤ steps.old + 16384 };

    /// Takes out a pair. It needs a vector of the width.
    ///
    /// It answers false exactly where the index doesn't hold the pair, and then changes nothing
    /// and takes no memory. After an `Err` the index stands for no stated pairs.
    fn remove<L: Ledger>(
        &mut self,
        number: Number,
        vector: &Vector,
        steps: &mut Steps<L>,
    ) -> Result<bool, AllocError>
        requires width { length vector.now ≡ width self.old }
        ensures present { IfOk result
            (λ found. IsTrue found ↔ (map.get (contents self.old) number ≡ Some vector.now)) }
        ensures absent { (map.get (contents self.old) number ≡ Some vector.now → ⊥)
            → (result ≡ Ok false) × (self.new ≡ self.old) }
        ensures removed { result ≡ Ok true → removed self.old self.new number vector.now }
        ensures same_width { width self.new ≡ width self.old }
        ensures lawful_width { IsWidth (width self.old) }
        ensures vectors { HaveWidth (width self.old) (contents self.old) }
        ensures counted { steps.new ≤ steps.old + (16384 + cost self.old vector.now 0) };

    // An index after an insertion has the pair beside those that it had, and its width.
    ghost inserts: { (before after : Self) (n : ℕ) (v : List ℕ) → inserted before after n v
        → (width after ≡ width before) × (contents after ≡ map.insert (contents before) n v) };

    // An index after a removal has the pairs that it had without this one, and its width.
    ghost removes: { (before after : Self) (n : ℕ) (v : List ℕ) → removed before after n v
        → (width after ≡ width before) × (contents after ≡ map.remove (contents before) n) };
}
