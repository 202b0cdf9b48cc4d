//! The bits of a vector past its last one, as they stand in a page.

ghost use Rattle.std.specs.Prelude.{◌≡◌, length};
ghost use Rattle.vec_record.specs.Limits.{width_of};
ghost use Rattle.vec_record.specs.Spelled.{is_spelled};

use vec_record::{MetricKind, Params};

/// Whether the bits of a vector past its last one are zero.
pub(crate) fn is_spelled(params: &Params, vector: &[u8]) -> bool
    requires { length vector.now ≡ width_of params.now.metric params.now.dim }
    ensures { result ≡ is_spelled params.now.metric params.now.dim vector.now }
{
    let width = params.width();
    let spare = match params.metric {
        MetricKind::L1 | MetricKind::Max => 0,
        MetricKind::Hamming => 8 * width - params.dim,
    };
    let last = u32::from(vector[width as usize - 1]);
    last % (1 << spare) == 0
}
