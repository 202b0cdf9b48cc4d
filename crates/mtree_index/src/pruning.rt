//! The first pruning test, of one entry and of all entries of a leaf.

ghost use Rattle.std.specs.Prelude.{◌≡◌, ℕ, ◌+◌, ◌<◌, ◌≤◌, not, length, take};
ghost use Rattle.mtree_node.specs.Cost.{is_skipped};
ghost use Rattle.mtree_index.specs.Band.{is_in};
ghost use Rattle.mtree_index.specs.Pruned.{places_left};

/// A leaf of a tree has at most 30 entries.
pub const GROUP: usize = 32;

/// The first pruning test: by the distances to the node's object an entry can't be within reach.
pub fn is_skipped(to_object: Option<u32>, reach: u64, parent: u32) -> bool
    ensures { result ≡ is_skipped to_object reach parent }
{
    match to_object {
        None => false,
        Some(distance) => reach < u64::from(distance.abs_diff(parent)),
    }
}

/// The parent distances that the first pruning test leaves in a leaf: `low`, and so many more
/// behind it.
#[derive(Clone, Copy)]
pub struct Band {
    low: u32,
    more: u32,
}

impl Band {
    pub fn new(to_object: Option<u32>, radius: u32) -> Band
        ensures fits { result.low + result.more < 4294967296 }
        ensures left { (p : ℕ) → p < 4294967296 → is_in result p
            ≡ not (is_skipped to_object radius p) }
    {
        match to_object {
            None => Band {
                low: 0,
                more: u32::MAX,
            },
            Some(distance) => {
                let low = distance.saturating_sub(radius);
                let more = distance.saturating_add(radius) - low;
                Band { low, more }
            }
        }
    }

    /// One subtraction and one comparison, without a branch.
    #[inline]
    pub fn has(self, parent: u32) -> bool
        requires { self.low + self.more < 4294967296 }
        ensures is { result ≡ is_in self parent }
        ensures fits { parent < 4294967296 }
    {
        parent.wrapping_sub(self.low) <= self.more
    }
}

/// Writes the places of the parent distances that the first pruning test leaves, and gives how
/// many they are. It tests without a branch: one for each entry would be guessed wrong too often.
#[inline]
pub fn left(parents: &[u32], to_object: Option<u32>, radius: u32, places: &mut [u8; GROUP]) -> usize
    requires { length parents.now ≤ 32 }
    ensures left { take result places.new ≡ places_left to_object radius parents.now }
    ensures few { result ≤ length parents.now }
{
    let band = Band::new(to_object, radius);
    let mut count = 0;
    for (place, parent) in parents.iter().enumerate() {
        places[count] = place as u8;
        count += usize::from(band.has(*parent));
    }
    count
}
