//! The program. It hands the words, standard input, the file beside standard output and two
//! watchers to the top call of `session_desk`, says on standard error what the status means, and
//! ends with its number.
#![tactic(auto)]

mod advice;

ghost use Rattle.std.specs.Prelude.{◌≡◌, ◌<◌};

use advice::explain;
use event_feed::{LastHundred, Tally, Watcher};
use session_desk::{Status, run};
use site_disk::{FileSite, StdSource};
use std::alloc::{AllocError, Global};
use std::env;
use std::io::ErrorKind;
use std::marker::Brand;
use std::process::ExitCode;
use std::sync::ledger::{Blank, Ledger};
use vec_record::Steps;

/// The words after the program's name; no words where they can't be read, as one that isn't UTF-8.
fn words(rt: &HostRuntime) -> Result<Vec<String>, AllocError> {
    let mut words = Vec::new(rt.alloc());
    match env::args(rt) {
        Ok(args) => {
            for word in args.skip(1) {
                words.push(word)?;
            }
            Ok(words)
        }
        Err(error) if error.kind() == ErrorKind::OutOfMemory => Err(AllocError),
        Err(_) => Ok(words),
    }
}

/// Runs the words with the two watchers of the program: a tally, and the last 100 events.
fn run_on<L: Ledger>(
    alloc: Global,
    rt: &HostRuntime,
    words: &[String],
    blank: Blank,
) -> Result<Status, AllocError>
    requires name { blank.name ≡ L.name }
    requires parts { blank.parts ≡ L.parts }
    requires some { 0 < blank.parts }
{
    let mut watchers: Vec<Box<dyn Watcher>> = Vec::with_capacity(alloc, 2)?;
    watchers.push(Box::new(alloc, Tally::new())?)?;
    watchers.push(Box::new(alloc, LastHundred::new(alloc)?)?)?;
    let mut source = StdSource::new(rt);
    let mut site = FileSite::new(rt);
    let mut steps = Steps::<L>::new(rt, blank);
    let status = run(alloc, words, &mut source, &mut site, watchers, &mut steps);
    explain(rt, status, words, source.last_error(), site.last_error());
    Ok(status)
}

fn main(rt: HostRuntime) -> ExitCode {
    let ended = match words(&rt) {
        Ok(words) => run_on::<Brand>(rt.alloc(), &rt, &words, Blank::new(1)),
        Err(error) => Err(error),
    };
    let status = match ended {
        Ok(status) => status,
        Err(_) => {
            explain(&rt, Status::Memory, &[], None, None);
            Status::Memory
        }
    };
    ExitCode::from(status.number())
}
