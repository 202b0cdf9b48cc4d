//! What a metric promises.

ghost use Rattle.std.specs.Prelude.{◌≡◌, ℕ, ◌+◌, ◌-◌, ◌≤◌, ◌↔◌, List, length, take};
ghost use Rattle.vec_record.specs.Vectors.{IsVector, IsWidth};
ghost use Rattle.vec_record.specs.Distance.{distance_of, greatest_of, most_distance};
ghost use Rattle.vec_record.specs.Asked.{ArePlaces, near_at, near_rows, AreFar};
ghost use Rattle.vec_record.specs.declared.kind.MetricKind.{MetricKind as Kinds};

use crate::block::Block;
use crate::kind::MetricKind;
use crate::steps::Steps;
use crate::vector::Vector;
use std::ops::Range;
use std::sync::ledger::Ledger;

/// A distance of two vectors of one width, with its laws.
///
/// The laws stand below the last call. Each speaks of lists of numbers below 256 that have one
/// length of 1 to 512.
pub trait Metric {
    const KIND: MetricKind;

    ghost KIND: { Kinds };

    /// The distance of two lists of bytes.
    ghost dist: { List ℕ → List ℕ → ℕ };

    /// The greatest distance at a width.
    ghost most: { ℕ → ℕ };

    /// The greatest distance between two vectors of `width` bytes.
    fn greatest(width: u32) -> u32
        requires { IsWidth width }
        ensures value { result ≡ most width }
        ensures small { result ≤ most_distance };

    /// The distance of two vectors of one length of 1 to 512 bytes. It takes no memory and counts
    /// one.
    fn distance<L: Ledger>(a: &Vector, b: &Vector, steps: &mut Steps<L>) -> u32
        requires same { length a.now ≡ length b.now }
        requires width { IsWidth (length a.now) }
        ensures value { result ≡ dist a.now b.now }
        ensures counts { steps.new ≡ steps.old + 1 };

    /// Writes those of the places whose rows are within the radius of the centre, in their order,
    /// and gives how many they are. It takes no memory and counts one for each place. It may leave
    /// off inside a distance that is past the radius.
    fn within<L: Ledger>(
        centre: &[u8],
        block: &Block,
        places: &[u8],
        radius: u32,
        near: &mut [u8],
        steps: &mut Steps<L>,
    ) -> usize
        requires width { length centre.now ≡ block.now.width }
        requires places { ArePlaces block.now places.now }
        requires room { length places.now ≤ length near.old }
        ensures near { take result near.new ≡ near_at dist centre.now block.now radius places.now }
        ensures few { result ≤ length places.now }
        ensures counts { steps.new ≡ steps.old + length places.now };

    /// The same of all rows from `rows.start` on and before `rows.end`.
    fn within_range<L: Ledger>(
        centre: &[u8],
        block: &Block,
        rows: Range<usize>,
        radius: u32,
        near: &mut [usize],
        steps: &mut Steps<L>,
    ) -> usize
        requires width { length centre.now ≡ block.now.width }
        requires order { rows.start ≤ rows.end }
        requires places { rows.end ≤ length block.now.rows }
        requires room { rows.end ≤ rows.start + length near.old }
        ensures near { take result near.new ≡ near_rows dist centre.now block.now radius rows }
        ensures few { result ≤ rows.end - rows.start }
        ensures counts { steps.new ≡ steps.old + (rows.end - rows.start) };

    /// Writes the distances of the rows at the places from the centre, in their order. It takes no
    /// memory and counts one for each place.
    fn distances<L: Ledger>(
        centre: &[u8],
        block: &Block,
        places: &[u8],
        far: &mut [u32],
        steps: &mut Steps<L>,
    )
        requires width { length centre.now ≡ block.now.width }
        requires places { ArePlaces block.now places.now }
        requires room { length places.now ≤ length far.old }
        ensures values { AreFar dist centre.now block.now places.now far.new }
        ensures counts { steps.new ≡ steps.old + length places.now };

    // Distance 0 is equality.
    ghost identity: { (w : ℕ) (u v : List ℕ) → IsWidth w → IsVector w u → IsVector w v
        → (dist u v ≡ 0) ↔ (u ≡ v) };

    // The distance is symmetric.
    ghost symmetry: { (w : ℕ) (u v : List ℕ) → IsWidth w → IsVector w u → IsVector w v → dist u v
        ≡ dist v u };

    // The triangle law.
    ghost triangle: { (w : ℕ) (u v x : List ℕ) → IsWidth w → IsVector w u → IsVector w v
        → IsVector w x → dist u x ≤ dist u v + dist v x };

    // No distance is above the greatest one.
    ghost bound: { (w : ℕ) (u v : List ℕ) → IsWidth w → IsVector w u → IsVector w v → dist u v
        ≤ most w };

    // Both are those of the kind.
    ghost defined: { (w : ℕ) (u v : List ℕ) → IsWidth w → IsVector w u → IsVector w v
        → (dist u v ≡ distance_of KIND u v) × (most w ≡ greatest_of KIND w) };
}
