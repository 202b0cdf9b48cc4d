//! Partings against those that `tools/parting_cases.py` computes apart from the program.

ghost use Rattle.std.specs.Prelude.{◌≡◌, ℕ, ◌+◌, ◌*◌, ◌<◌, ◌≤◌, length, All, IsTrue};
ghost use Rattle.mtree_split.specs.Choice.{distance_of};

use crate::choose;

// A coordinate of the point at a position.
fn coordinate(k: usize, step: u32, modulus: u32) -> u32
    requires place { k < 64 }
    requires modulus { 0 < modulus }
{
    (k as u32).wrapping_mul(step) % modulus
}

fn fill_matrix(count: usize, matrix: &mut [u32], shape: &[u32; 3], greatest: u32)
    requires some { 0 < count }
    requires at_most { count ≤ 36 }
    requires square { length matrix.old ≡ count * count }
{
    let modulus = shape[2].max(1);
    for place in 0..count * count {
        let (i, j) = (place / count, place % count);
        let across = coordinate(i, shape[0], modulus).abs_diff(coordinate(j, shape[0], modulus));
        let along = coordinate(i, shape[1], modulus).abs_diff(coordinate(j, shape[1], modulus));
        matrix[place] = across.saturating_add(along).min(greatest);
    }
}

fn fill_radii(radii: &mut [u32], shape: &[u32; 3], greatest: u32)
    requires { length radii.old ≤ 36 }
{
    for k in 0..radii.len() {
        let radius = coordinate(k, shape[0], shape[1].max(1)).saturating_add(shape[2]);
        radii[k] = radius.min(greatest);
    }
}

fn is_lawful_row(count: usize, matrix: &[u32], i: usize) -> bool
    requires at_most { count ≤ 36 }
    requires square { length matrix.now ≡ count * count }
    requires inside { i < count }
    ensures zero { IsTrue result → distance_of count matrix.now i i ≡ 0 }
    ensures symmetric { IsTrue result → (j : ℕ) → j < count → distance_of count matrix.now i j
        ≡ distance_of count matrix.now j i }
{
    for j in 0..count {
        if matrix[i * count + j] != matrix[j * count + i] {
            return false;
        }
    }
    matrix[i * count + i] == 0
}

fn is_lawful(count: usize, matrix: &[u32]) -> bool
    requires at_most { count ≤ 36 }
    requires square { length matrix.now ≡ count * count }
    ensures zero { IsTrue result → (i : ℕ) → i < count → distance_of count matrix.now i i ≡ 0 }
    ensures symmetric { IsTrue result → (i j : ℕ) → i < count → j < count
        → distance_of count matrix.now i j ≡ distance_of count matrix.now j i }
{
    for i in 0..count {
        if !is_lawful_row(count, matrix, i) {
            return false;
        }
    }
    true
}

fn are_at_most(values: &[u32], greatest: u32) -> bool
    ensures { IsTrue result → All (λ value. value ≤ greatest) values.now }
{
    values.iter().all(|value| *value <= greatest)
}

// The output of `tools/parting_cases.py`: the count, what the points are made from, what the radii
// are made from, the greatest distance, the pair, the entries that go right as bits, and the
// radii.
const PARTINGS: [(usize, [u32; 3], [u32; 3], u32, [usize; 2], u64, [u32; 2]); 7] = [
    (31, [0, 0, 1], [0, 1, 0], 510, [0, 1], 0x2aaaaaaa, [0, 0]),
    (
        36,
        [1, 0, 100],
        [0, 1, 0],
        510,
        [8, 26],
        0xffffc0000,
        [9, 9],
    ),
    (34, [1, 0, 2], [1, 5, 0], 510, [0, 1], 0x2aaaaaaaa, [4, 4]),
    (
        36,
        [37, 13, 101],
        [7, 11, 0],
        510,
        [9, 29],
        0x8e8e8f4f0,
        [78, 67],
    ),
    (
        33,
        [91, 57, 256],
        [1, 3, 498],
        510,
        [0, 1],
        0x1632995a6,
        [510, 510],
    ),
    (
        32,
        [91, 57, 256],
        [29, 300, 0],
        510,
        [1, 4],
        0xc663399c,
        [402, 405],
    ),
    (
        35,
        [91, 57, 256],
        [29, 300, 0],
        290,
        [0, 1],
        0x3732994a6,
        [290, 290],
    ),
];

#[test]
fn partings_from_outside(rt: HostRuntime) {
    for (count, points, reaches, greatest, pair, bits, radii) in PARTINGS {
        assert!(rt; 31 <= count && count <= 36);
        let mut matrix = [0u32; 1296];
        let mut entry_radii = [0u32; 36];
        fill_matrix(count, &mut matrix[..count * count], &points, greatest);
        fill_radii(&mut entry_radii[..count], &reaches, greatest);
        let distances = &matrix[..count * count];
        let entry_radii = &entry_radii[..count];
        assert!(rt; is_lawful(count, distances));
        assert!(rt; are_at_most(distances, greatest));
        assert!(rt; are_at_most(entry_radii, greatest));
        let parting = choose(count, distances, entry_radii, greatest);
        assert_eq!(rt; [parting.left, parting.right], pair);
        assert_eq!(rt; [parting.left_radius, parting.right_radius], radii);
        for k in 0..36 {
            assert_eq!(rt; parting.sides[k], bits >> k & 1 == 1);
        }
    }
}
