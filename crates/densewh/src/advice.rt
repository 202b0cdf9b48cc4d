//! What standard error says of a status: one line, with what to do. Where standard error is closed
//! or full, nothing is said.

use session_desk::Status;
use site_disk::SiteError;
use std::io;

/// What a refusal's number means.
const REFUSALS: &str = "11 malformed record, 12 vector of the wrong length, 13 number is present, \
14 number is absent, 15 store is full, 16 over 100,000 records, 17 input ends before the line end, \
18 line over 4,096 bytes, 19 no batch number is left, 21 unknown line, 22 number is absent, \
23 no cluster has the label, 24 slot is empty";

/// Where there is no command.
const NO_WORD: &str = "there was no word, or one that isn't UTF-8: give once, init, serve or trial";

/// Where something was refused.
const REFUSED: &str = "what was refused changed nothing: correct it and give it again";

/// Where a second program wants the store.
const LOCKED: &str = "another program has the store open: wait until it ends";

/// What a user may rest on after a run that was cut off.
const KEPT: &str = "every batch whose receipt was said is in the store, and at most one more: \
look at the report before a batch is given again";

/// The number that a word says: one to ten digits.
fn number(word: &str) -> Option<u32> {
    let digits = word.as_bytes();
    if digits.len() > 10 || !digits.iter().all(|digit| digit.is_ascii_digit()) {
        return None;
    }
    word.parse::<u32>().ok()
}

/// Whether a word says a number from `least` to `most`.
fn is_within(word: &str, least: u32, most: u32) -> bool {
    match number(word) {
        Some(value) => least <= value && value <= most,
        None => false,
    }
}

/// The least and the greatest value of a word, and what to say where it is another.
type Limit = (u32, u32, &'static str);

/// The first of some words that is off its limits, and what it should be.
fn first_beyond<'a>(words: &'a [String], limits: &[Limit]) -> Option<(&'a str, &'static str)> {
    for (word, limit) in words.iter().zip(limits) {
        if !is_within(word.as_str(), limit.0, limit.1) {
            return Some((word.as_str(), limit.2));
        }
    }
    None
}

/// The first word behind `trial` that is off, and what it should be.
fn first_off_trial(words: &[String]) -> Option<(&str, &'static str)> {
    let limits = [
        (0, u32::MAX, "SEED is 0 to 4294967295"),
        (1, 100_000, "COUNT is 1 to 100000"),
    ];
    first_beyond(words.get(1..)?, &limits)
}

/// The first word behind `once` or `init` that is off, and what it should be.
fn first_off(words: &[String]) -> Option<(&str, &'static str)> {
    let metric = words.get(1)?;
    let most_dim = match metric.as_str() {
        "l1" | "max" => 256,
        "hamming" => 2048,
        _ => return Some((metric.as_str(), "METRIC is l1, max or hamming")),
    };
    let limits = [
        (1, most_dim, "DIM is 1 to 256, or 1 to 2048 for hamming"),
        (0, 65_535, "EPS is 0 to 65535"),
        (1, 65_535, "MINPTS is 1 to 65535"),
        (1, 200_000, "CAP is 1 to 200000"),
    ];
    first_beyond(words.get(2..)?, &limits)
}

/// Which of the words behind a command is off, where their number is right.
fn explain_values(
    rt: &HostRuntime,
    command: &str,
    words: &[String],
    count: usize,
    off: Option<(&str, &'static str)>,
) -> io::Result<()> {
    let given = words.len().saturating_sub(1);
    if given != count {
        return eprintln!(rt; "densewh: {command} takes {count} words behind it, and not {given}");
    }
    match off {
        Some((word, due)) => eprintln!(rt; "densewh: {due}, and not {word:?}"),
        None => eprintln!(rt; "densewh: the words have no known form"),
    }
}

/// Which word is off.
fn explain_words(rt: &HostRuntime, words: &[String]) -> io::Result<()> {
    let Some(command) = words.first() else {
        return eprintln!(rt; "densewh: {NO_WORD}");
    };
    match command.as_str() {
        "once" => explain_values(rt, "once", words, 4, first_off(words)),
        "init" => explain_values(rt, "init", words, 5, first_off(words)),
        "serve" => explain_values(rt, "serve", words, 0, None),
        "trial" => explain_values(rt, "trial", words, 2, first_off_trial(words)),
        other => {
            eprintln!(rt; "densewh: {other:?} is no command today: give once, init, serve or trial")
        }
    }
}

/// Why the file or standard output failed.
fn explain_site(rt: &HostRuntime, cause: Option<SiteError>) -> io::Result<()> {
    match cause {
        Some(SiteError::Output(error)) => {
            eprintln!(rt; "densewh: standard output: {error}; {KEPT}")
        }
        Some(SiteError::File(error)) => eprintln!(rt; "densewh: warehouse.idb: {error}; {KEPT}"),
        Some(SiteError::Locked) => eprintln!(rt; "densewh: warehouse.idb: {LOCKED}"),
        None => eprintln!(rt; "densewh: warehouse.idb or standard output failed; {KEPT}"),
    }
}

/// Why standard input failed.
fn explain_source(rt: &HostRuntime, cause: Option<io::Error>) -> io::Result<()> {
    let kept = "every batch in the store has its receipt said";
    match cause {
        Some(error) => eprintln!(rt; "densewh: standard input: {error}; {kept}"),
        None => eprintln!(rt; "densewh: standard input failed; {kept}"),
    }
}

/// The line of each status that has no cause beside it.
fn explain_rest(rt: &HostRuntime, status: Status) -> io::Result<()> {
    let line = match status {
        Status::Memory => {
            "there was no memory; every batch in the store has its receipt said: \
give the others again where there is more"
        }
        Status::Blank => "no store here: make one with: densewh init METRIC DIM EPS MINPTS CAP",
        Status::Broken => {
            "warehouse.idb is no store, or is damaged: put a copy of the store there"
        }
        Status::TooLong => {
            "the input has over 67108864 bytes: give it in parts; serve has answered the whole \
lines within them"
        }
        Status::Exists => {
            "warehouse.idb isn't blank: use densewh serve, or make a store in another folder"
        }
        _ => "the store isn't what its records give",
    };
    eprintln!(rt; "densewh: {line}")
}

/// Says what a status means. The causes are those that standard input and the site kept.
pub fn explain(
    rt: &HostRuntime,
    status: Status,
    words: &[String],
    input: Option<io::Error>,
    site: Option<SiteError>,
) {
    let _ = match status {
        Status::Fine => Ok(()),
        Status::Refused => eprintln!(rt; "densewh: {REFUSED}; {REFUSALS}"),
        Status::Words => explain_words(rt, words),
        Status::SiteFault => explain_site(rt, site),
        Status::SourceFault => explain_source(rt, input),
        other => explain_rest(rt, other),
    };
}
