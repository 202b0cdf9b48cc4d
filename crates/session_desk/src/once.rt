//! The word `once`.

ghost use Rattle.std.specs.Prelude.{◌≡◌, ◌≤◌, ◌+◌, ◌++◌, ℕ, List, [], take, false, IsTrue, IfOk};
ghost use Rattle.std.specs.Prelude.{Ok, ◌⊎◌, length};
ghost use Rattle.std.specs.FinMap as map;
ghost use Rattle.vec_record.specs.Distance.{distance_of};
ghost use Rattle.plain_dbscan.specs.Marks.{density, marks_of};
ghost use Rattle.session_desk.specs.Words.{setting};
ghost use Rattle.session_desk.specs.Input.{rows_of};
ghost use Rattle.session_desk.specs.Answers.{IsDue, due, refusal_text as text_of_refusal};
ghost use Rattle.session_desk.specs.Answers.{report_on, answer_under};
ghost use Rattle.site_disk.specs.Causes.{Rose};
ghost use Rattle.site_disk.specs.State.{Safe};
ghost use Rattle.session_desk.specs.Moments.{IsSaying, LeavesAlone};
ghost use Rattle.session_desk.specs.Statuses.{is_fault};
ghost use Rattle.session_desk.specs.Reading.{IsTaken};

use crate::input::{InputFault, Refusal, read_records};
use crate::reading::{INPUT_LIMIT, ReadFault, read_all};
use crate::saying::say;
use crate::status::Status;
use crate::texts::refusal_line;
use cluster_report::report_text;
use int_metric::{Hamming, L1, Max};
use plain_dbscan::{Marks, cluster_plain};
use site_disk::{Site, Source};
use std::alloc::{AllocError, Global};
use std::sync::ledger::Ledger;
use vec_record::{Bytes, MetricKind, Params, Records, Steps};

/// What there is to say, and how the run ends once it is said.
#[derive(Drop)]
pub struct Answer {
    pub status: Status,
    pub text: Bytes,
}

/// The refusal of an input.
fn refuse(alloc: Global, refusal: Refusal) -> Result<Answer, AllocError>
    ensures { IfOk result (λ a. IsDue a.status a.text
        (due Status.Refused (text_of_refusal refusal))) }
{
    let mut text = Bytes::new(alloc);
    refusal_line(refusal.number(), refusal.place(), &mut text)?;
    Ok(Answer {
        status: Status::Refused,
        text,
    })
}

/// The report on an input within the limit, or its refusal.
fn report<L: Ledger>(
    alloc: Global,
    params: &Params,
    input: &[u8],
    steps: &mut Steps<L>,
) -> Result<Answer, AllocError>
    requires cap { params.now.cap ≡ 200000 }
    requires few { length input.now ≤ INPUT_LIMIT }
    ensures due { IfOk result (λ a. IsDue a.status a.text
        (report_on (setting params.now.metric params.now.dim params.now.eps params.now.minpts)
        (rows_of params.now.metric params.now.dim input.now))) }
    ensures status { IfOk result (λ a. (a.status ≡ Status.Fine) ⊎ (a.status ≡ Status.Refused)) }
{
    match read_records(alloc, params, input) {
        Ok(records) => report_records(alloc, params, &records, steps),
        Err(InputFault::Refused(refusal)) => refuse(alloc, refusal),
        Err(InputFault::Memory) => Err(AllocError),
    }
}

/// The marks of records by the metric of the parameters.
fn find_marks<L: Ledger>(
    alloc: Global,
    params: &Params,
    records: &Records,
    steps: &mut Steps<L>,
) -> Result<Marks, AllocError>
    ensures { IfOk result (λ m. m
        ≡ marks_of (density (distance_of params.now.metric) params.now.eps params.now.minpts)
        (map.entries records.now.vectors)) }
{
    match params.metric {
        MetricKind::L1 => {
            cluster_plain::<L1, L>(alloc, records, params.eps, params.minpts, steps)
        }
        MetricKind::Max => {
            cluster_plain::<Max, L>(alloc, records, params.eps, params.minpts, steps)
        }
        MetricKind::Hamming => {
            cluster_plain::<Hamming, L>(alloc, records, params.eps, params.minpts, steps)
        }
    }
}

/// The report on records.
fn report_records<L: Ledger>(
    alloc: Global,
    params: &Params,
    records: &Records,
    steps: &mut Steps<L>,
) -> Result<Answer, AllocError>
    ensures { IfOk result (λ a. IsDue a.status a.text
        (report_on (setting params.now.metric params.now.dim params.now.eps params.now.minpts)
        (Ok records.now.vectors))) }
{
    let marks = find_marks(alloc, params, records, steps)?;
    let mut text = Bytes::new(alloc);
    report_text(&marks, &mut text)?;
    Ok(Answer {
        status: Status::Fine,
        text,
    })
}

/// Reads the whole input as one batch over no records, and says the report or the refusal.
pub fn run_once<S: Source, T: Site, L: Ledger>(
    alloc: Global,
    params: &Params,
    source: &mut S,
    site: &mut T,
    steps: &mut Steps<L>,
) -> Status
    requires cap { params.now.cap ≡ 200000 }
    ensures status { IsTrue S.tells → is_fault result ≡ false → result
        ≡ (answer_under params.now (S.left source.old)).status }
    ensures text { IsTrue S.tells → IsTrue T.tells → is_fault result ≡ false
        → (T.state site.new).said
        ≡ (T.state site.old).said ++ (answer_under params.now (S.left source.old)).text }
    ensures prefix { IsTrue S.tells → IsTrue T.tells → (n : ℕ)
        × ((T.state site.new).said
        ≡ (T.state site.old).said ++ take n (answer_under params.now (S.left source.old)).text) }
    ensures moments { IsTrue S.tells → IsTrue T.tells
        → Safe (T.state site.old) (T.state site.new)
        (IsSaying (T.state site.old) (answer_under params.now (S.left source.old)).text) }
    ensures alone { IsTrue T.tells → LeavesAlone (T.state site.old) (T.state site.new) }
    ensures known { result ≡ Status.Words → ⊥ }
    ensures site { result ≡ Status.SiteFault → Rose (T.faults site.old) (T.faults site.new) }
    ensures source { result ≡ Status.SourceFault
        → Rose (S.faults source.old) (S.faults source.new) }
    ensures quiet { IsTrue T.tells → (result ≡ Status.SourceFault) ⊎ (result ≡ Status.Memory)
        → (T.state site.new).said ≡ (T.state site.old).said }
    ensures begins { IsTrue T.tells → (more : List ℕ)
        × ((T.state site.new).said ≡ (T.state site.old).said ++ more) }
    ensures taken { IsTrue S.tells
        → IsTaken (INPUT_LIMIT + 1) (S.left source.old) (S.left source.new) }
    ensures ended { IsTrue S.tells → (result ≡ Status.Fine) ⊎ (result ≡ Status.Refused)
        → S.left source.new ≡ [] }
    ensures source_later { S.faults source.old ≤ S.faults source.new }
    ensures site_later { T.faults site.old ≤ T.faults site.new }
{
    let input = match read_all(alloc, source) {
        Ok(input) => input,
        Err(ReadFault::Source) => return Status::SourceFault,
        Err(ReadFault::TooMuch) => return say(site, Status::TooLong, b"session too long\n"),
        Err(ReadFault::Memory) => return Status::Memory,
    };
    match report(alloc, params, &input, steps) {
        Ok(answer) => say(site, answer.status, answer.text.as_slice()),
        Err(_) => Status::Memory,
    }
}
