//! The head page: the parameters of the store and its counts.

ghost use Rattle.std.specs.Prelude.{◌≡◌, ◌≢◌, length, Ok, Err, None, IfOk, IfErr, MatchResult};
ghost use Rattle.page_layout.specs.Fields.{first_bad};
ghost use Rattle.page_layout.specs.Heads.{IsHead, plain, values_of, metric_number, metric_of};
ghost use Rattle.page_layout.specs.Heads.{dim_limit, is_root, is_height, head_fields, values_in};
ghost use Rattle.page_layout.specs.Heads.{head_of, head_page};

use crate::fault::LayoutFault;
use crate::field::{first_bad, first_set, is_between, put_words, word_at};
use page_gate::Page;
use vec_record::{MetricKind, Params};

/// What the head page says.
#[derive(Clone, Copy, Debug)]
pub struct Head {
    /// The number of pages, page 0 and this one among them.
    pub pages: u32,
    pub version: u32,
    pub params: Params,
    /// How many batches were accepted.
    pub batches: u32,
    /// How many records there are.
    pub count: u32,
    /// The reference of the tree's root, and the number of its levels; both are 0 for no record.
    pub root: u32,
    pub height: u32,
}

/// The number that stands for a metric.
fn metric_number(metric: MetricKind) -> u32
    ensures { result ≡ metric_number metric }
{
    match metric {
        MetricKind::L1 => 1,
        MetricKind::Max => 2,
        MetricKind::Hamming => 3,
    }
}

/// The metric of a number from 1 to 3.
fn metric_of(number: u32) -> MetricKind
    ensures { result ≡ metric_of number }
{
    match number {
        1 => MetricKind::L1,
        2 => MetricKind::Max,
        _ => MetricKind::Hamming,
    }
}

/// The greatest dimension under the metric of a number.
fn dim_limit(metric: u32) -> u32
    ensures { result ≡ dim_limit metric }
{
    if metric == 3 { 2048 } else { 256 }
}

/// Whether a root is lawful beside the number of records.
fn is_root(count: u32, root: u32) -> bool
    ensures { result ≡ is_root count root }
{
    if count == 0 { root == 0 } else { root >= 1 }
}

/// Whether a height is lawful beside the number of records.
fn is_height(count: u32, height: u32) -> bool
    ensures { result ≡ is_height count height }
{
    if count == 0 {
        height == 0
    } else {
        is_between(1, 6, height)
    }
}

/// Fills the head page.
pub fn write_head(head: &Head, out: &mut Page)
    requires { IsHead (plain head.now) }
    ensures { out.new ≡ head_page (plain head.now) }
{
    let params = &head.params;
    let words = [
        head.pages,
        head.version,
        metric_number(params.metric),
        params.dim,
        params.eps,
        params.minpts,
        params.cap,
        head.batches,
        head.count,
        head.root,
        head.height,
    ];
    out.clear();
    put_words(out, 0, &words);
}

/// The offset of the first field of a head page that isn't lawful.
fn bad_head_field(page: &[u8]) -> Option<u32>
    requires { length page.now ≡ 16384 }
    ensures { result ≡ first_bad (head_fields page.now) }
{
    let metric = word_at(page, 8);
    let cap = word_at(page, 24);
    let count = word_at(page, 32);
    let fields = [
        (0, word_at(page, 0) >= 2),
        (8, is_between(1, 3, metric)),
        (12, is_between(1, dim_limit(metric), word_at(page, 12))),
        (16, is_between(0, 65_535, word_at(page, 16))),
        (20, is_between(1, 65_535, word_at(page, 20))),
        (24, is_between(1, 200_000, cap)),
        (32, count <= cap),
        (36, is_root(count, word_at(page, 36))),
        (40, is_height(count, word_at(page, 40))),
    ];
    match first_bad(&fields) {
        Some(offset) => Some(offset),
        None => first_set(page, 44, 16384),
    }
}

/// The parameters of a head page whose fields are lawful.
fn params_in(page: &[u8]) -> Params
    requires len { length page.now ≡ 16384 }
    requires lawful { first_bad (head_fields page.now) ≡ None }
    ensures { values_of result ≡ values_in page.now }
{
    Params {
        metric: metric_of(word_at(page, 8)),
        dim: word_at(page, 12),
        eps: word_at(page, 16),
        minpts: word_at(page, 20),
        cap: word_at(page, 24),
    }
}

/// Reads the bytes of a head page.
fn read_fields(page: &[u8]) -> Result<Head, LayoutFault>
    requires { length page.now ≡ 16384 }
    ensures head { MatchResult result (λ h. head_of page.now ≡ Ok (plain h))
        (λ e. head_of page.now ≡ Err e) }
    ensures lawful { IfOk result (λ h. IsHead (plain h)) }
    ensures memory { IfErr result (λ e. e ≢ LayoutFault.Memory) }
{
    let version = word_at(page, 4);
    if version != 1 {
        return Err(LayoutFault::Foreign);
    }
    if let Some(offset) = bad_head_field(page) {
        return Err(LayoutFault::Damaged { offset });
    }
    Ok(Head {
        pages: word_at(page, 0),
        version,
        params: params_in(page),
        batches: word_at(page, 28),
        count: word_at(page, 32),
        root: word_at(page, 36),
        height: word_at(page, 40),
    })
}

/// Reads the head page. `Foreign` comes exactly where the version isn't known, `Damaged` exactly
/// where it is and a field isn't lawful, with the first such field; it takes no memory.
pub fn read_head(page: &Page) -> Result<Head, LayoutFault>
    ensures head { MatchResult result (λ h. head_of page.now ≡ Ok (plain h))
        (λ e. head_of page.now ≡ Err e) }
    ensures lawful { IfOk result (λ h. IsHead (plain h)) }
    ensures memory { IfErr result (λ e. e ≢ LayoutFault.Memory) }
{
    read_fields(page.as_slice())
}
