//! The words of the command line.

ghost use Rattle.std.specs.Prelude.{◌≡◌, map, string_bytes};
ghost use Rattle.session_desk.specs.Words.{metric_named as named, number_in, checked};
ghost use Rattle.session_desk.specs.Words.{checked_values, setting_of, init_of, is_serve};
ghost use Rattle.session_desk.specs.Words.{trial_of};
ghost use Rattle.session_desk.specs.Words.{command_of};
ghost use Rattle.session_desk.specs.Settings.{IsSetting, IsInit, IsTrial, IsTask};

use crate::trial::Trial;
use batch_text::number::number_within;
use vec_record::{MetricKind, Params};

/// The most records that `once` clusters.
const CAP: u32 = 200_000;

/// The most changes of a trial.
const MOST_CHANGES: u32 = 100_000;

/// What the words ask the program for.
pub enum Task {
    Once(Params),
    Init(Params),
    Serve,
    Trial(Trial),
}

/// The metric of a name.
fn metric_named(word: &str) -> Option<MetricKind>
    ensures { result ≡ named word.now }
{
    match word {
        "l1" => Some(MetricKind::L1),
        "max" => Some(MetricKind::Max),
        "hamming" => Some(MetricKind::Hamming),
        _ => None,
    }
}

/// The parameters of `once` with these values, where all are there and within their limits.
fn make_params(
    metric: Option<MetricKind>,
    dim: Option<u32>,
    eps: Option<u32>,
    minpts: Option<u32>,
) -> Option<Params>
    ensures { IsSetting result (checked metric dim eps minpts) }
{
    Params::check(metric?, dim?, eps?, minpts?, CAP)
}

/// The parameters of a new store with these values, where all are there and within their limits.
fn make_store_params(
    metric: Option<MetricKind>,
    dim: Option<u32>,
    eps: Option<u32>,
    minpts: Option<u32>,
    cap: Option<u32>,
) -> Option<Params>
    ensures { IsInit result (checked_values metric dim eps minpts cap) }
{
    Params::check(metric?, dim?, eps?, minpts?, cap?)
}

/// The number that a word says.
fn number(word: &str) -> Option<u32>
    ensures { result ≡ number_in word.now }
{
    number_within(word.as_bytes(), 0, u32::MAX)
}

/// The parameters that the words `once METRIC DIM EPS MINPTS` give, or `None` for any other words.
fn read_once(words: &[String]) -> Option<Params>
    ensures { IsSetting result (setting_of (map string_bytes words.now)) }
{
    let [once, metric, dim, eps, minpts] = words else {
        return None;
    };
    if once.as_str() != "once" {
        return None;
    }
    let metric = metric_named(metric.as_str());
    make_params(
        metric,
        number(dim.as_str()),
        number(eps.as_str()),
        number(minpts.as_str()),
    )
}

/// The parameters that the words METRIC DIM EPS MINPTS CAP give a new store.
fn read_store_params(metric: &str, dim: &str, eps: &str, minpts: &str, cap: &str) -> Option<Params>
    ensures { IsInit result (checked_values (named metric.now) (number_in dim.now)
        (number_in eps.now) (number_in minpts.now) (number_in cap.now)) }
{
    make_store_params(
        metric_named(metric),
        number(dim),
        number(eps),
        number(minpts),
        number(cap),
    )
}

/// The parameters that the words `init METRIC DIM EPS MINPTS CAP` give, or `None` for any other
/// words.
fn read_init(words: &[String]) -> Option<Params>
    ensures { IsInit result (init_of (map string_bytes words.now)) }
{
    let [init, metric, dim, eps, minpts, cap] = words else {
        return None;
    };
    if init.as_str() != "init" {
        return None;
    }
    read_store_params(
        metric.as_str(),
        dim.as_str(),
        eps.as_str(),
        minpts.as_str(),
        cap.as_str(),
    )
}

/// Whether the words are `serve`.
fn are_serve(words: &[String]) -> bool
    ensures { result ≡ is_serve (map string_bytes words.now) }
{
    let [serve] = words else {
        return false;
    };
    serve.as_str() == "serve"
}

/// The trial that the words `trial SEED COUNT` ask for, or `None` for any other words.
fn read_trial(words: &[String]) -> Option<Trial>
    ensures { IsTrial result (trial_of (map string_bytes words.now)) }
{
    let [trial, seed, count] = words else {
        return None;
    };
    if trial.as_str() != "trial" {
        return None;
    }
    let seed = number(seed.as_str())?;
    let count = number_within(count.as_bytes(), 1, MOST_CHANGES)?;
    Some(Trial { seed, count })
}

/// What the words ask for, or `None` for words of no known form.
pub fn read_words(words: &[String]) -> Option<Task>
    ensures { IsTask result (command_of (map string_bytes words.now))
        (setting_of (map string_bytes words.now)) }
{
    if are_serve(words) {
        return Some(Task::Serve);
    }
    if let Some(params) = read_init(words) {
        return Some(Task::Init(params));
    }
    if let Some(trial) = read_trial(words) {
        return Some(Task::Trial(trial));
    }
    Some(Task::Once(read_once(words)?))
}
