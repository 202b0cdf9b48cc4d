//! A vector of bytes.

ghost use Rattle.std.specs.Prelude.{◌≡◌, ◌↔◌, ◌≤◌, length, IfOk, IfSome, IsSome};
ghost use Rattle.vec_record.specs.Vectors.{AreBytes};
ghost use Rattle.vec_record.specs.Place.{bytes_of, IsWithin};

use std::alloc::{AllocError, Global};
use std::marker::Model;

// So many bytes fill the value to the size that it has anyway.
const SHORT: usize = 30;

/// Where the bytes of a vector lie: those of a short one in the value itself, so that it is read
/// without another look into memory.
#[derive(Drop)]
pub(crate) enum Place {
    Short { len: u8, bytes: [u8; SHORT] },
    Long(Vec<u8>),
}

/// A vector, seen as the list of its bytes.
pub struct Vector {
    place: Place,
}

impl Model for Vector {
    ghost use Rattle.std.specs.Prelude.{List, ℕ};
    ghost use Rattle.vec_record.specs.Place.{bytes_of, IsWithin};

    ghost Value = { List ℕ };

    ghost view = { λ v. bytes_of v.place };

    ghost invariant = { λ v. IsWithin v.place };
}

// By hand, so that the proof of a caller that drops a vector has one case and not one for each
// place.
impl Drop for Vector {
    fn drop(self) {
        let Vector { place: _ } = self;
    }
}

impl Vector {
    pub fn from_slice(alloc: Global, bytes: &[u8]) -> Result<Vector, AllocError>
        ensures { IfOk result (λ v. v ≡ bytes.now) }
    {
        let place = match short(bytes) {
            Some(place) => place,
            None => Place::Long(Vec::from_slice(alloc, bytes)?),
        };
        Ok(Vector { place })
    }

    #[inline]
    pub fn as_slice(&self) -> &[u8]
        ensures value { result.now ≡ self.now }
        ensures bytes { AreBytes self.now }
    {
        match &self.place {
            Place::Short { len, bytes } => known(&bytes[..usize::from(*len)]),
            Place::Long(bytes) => known(bytes),
        }
    }

    /// A vector of the same bytes, on the same allocator.
    pub fn copy(&self) -> Result<Vector, AllocError>
        ensures { IfOk result (λ v. v ≡ self.now) }
    {
        let place = match &self.place {
            Place::Short { len, bytes } => Place::Short {
                len: *len,
                bytes: *bytes,
            },
            Place::Long(bytes) => Place::Long(Vec::from_slice(*bytes.allocator(), bytes)?),
        };
        Ok(Vector { place })
    }
}

// The bytes in the value itself, if they are few enough.
fn short(bytes: &[u8]) -> Option<Place>
    ensures few { IsSome result ↔ length bytes.now ≤ 30 }
    ensures place { IfSome result (λ p. (bytes_of p ≡ bytes.now) × IsWithin p) }
{
    if bytes.len() > SHORT {
        return None;
    }
    let mut own = [0; SHORT];
    own[..bytes.len()].copy_from_slice(bytes);
    Some(Place::Short {
        len: bytes.len() as u8,
        bytes: own,
    })
}

/// A slice of bytes holds numbers below 256 alone.
#[inline]
pub(crate) fn known(bytes: &[u8]) -> &[u8]
    ensures same { result.now ≡ bytes.now }
    ensures bytes { AreBytes bytes.now }
{
    bytes
}
