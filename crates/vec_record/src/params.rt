//! The parameters of a store, and their limits.

ghost use Rattle.std.specs.Prelude.{◌≡◌, ◌↔◌, IsTrue, IsSome, IfSome};
ghost use Rattle.vec_record.specs.Vectors.{IsWidth};
ghost use Rattle.vec_record.specs.Limits.{are_within, width_of};

use crate::kind::MetricKind;

/// The parameters of a store, each within its limits.
#[derive(Clone, Copy, Debug, PartialEq, Eq)]
pub struct Params {
    pub metric: MetricKind,
    /// Coordinates of a vector (1 to 256), or its bits for `Hamming` (1 to 2,048).
    pub dim: u32,
    /// How far a neighbour may be: 0 to 65,535.
    pub eps: u32,
    /// How many neighbours make a core, itself counted: 1 to 65,535.
    pub minpts: u32,
    /// How many records there may be: 1 to 200,000.
    pub cap: u32,
    ghost limits: { IsTrue (are_within metric dim eps minpts cap) },
}

impl Params {
    /// The parameters, or `None` exactly where a value is out of its limits.
    pub fn check(metric: MetricKind, dim: u32, eps: u32, minpts: u32, cap: u32) -> Option<Params>
        ensures within { IsSome result ↔ IsTrue (are_within metric dim eps minpts cap) }
        ensures metric { IfSome result (λ p. p.metric ≡ metric) }
        ensures dim { IfSome result (λ p. p.dim ≡ dim) }
        ensures eps { IfSome result (λ p. p.eps ≡ eps) }
        ensures minpts { IfSome result (λ p. p.minpts ≡ minpts) }
        ensures cap { IfSome result (λ p. p.cap ≡ cap) }
    {
        let greatest_dim = match metric {
            MetricKind::L1 | MetricKind::Max => 256,
            MetricKind::Hamming => 2048,
        };
        let within = 1 <= dim
            && dim <= greatest_dim
            && eps <= 65_535
            && 1 <= minpts
            && minpts <= 65_535
            && 1 <= cap
            && cap <= 200_000;
        if within {
            Some(Params {
                metric,
                dim,
                eps,
                minpts,
                cap,
            })
        } else {
            None
        }
    }

    /// The bytes of a vector: 1 to 256.
    pub fn width(&self) -> u32
        ensures value { result ≡ width_of self.now.metric self.now.dim }
        ensures width { IsWidth result }
    {
        match self.metric {
            MetricKind::L1 | MetricKind::Max => self.dim,
            MetricKind::Hamming => self.dim.div_ceil(8),
        }
    }
}
