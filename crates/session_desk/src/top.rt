//! The top call.

ghost use Rattle.std.specs.Prelude.{◌≡◌, ◌≤◌, ◌+◌, ◌++◌, ◌⊎◌, [], ℕ, List, None, Some, false};
ghost use Rattle.std.specs.Prelude.{IsTrue, map, string_bytes};
ghost use Rattle.site_disk.specs.Causes.{Rose};
ghost use Rattle.site_disk.specs.State.{Safe, Joins};
ghost use Rattle.page_gate.specs.Gate.{is_blank};
ghost use Rattle.page_layout.specs.Heads.{Values};
ghost use Rattle.event_feed.specs.Meanings.{filled};
ghost use Rattle.session_desk.specs.Moments.{Says, LeavesAlone};
ghost use Rattle.session_desk.specs.Statuses.{is_fault};
ghost use Rattle.session_desk.specs.Words.{Init, Serve, Trial, setting_of, command_of};
ghost use Rattle.session_desk.specs.Words.{asks_more};
ghost use Rattle.session_desk.specs.Trial.{trial_text, trial_work};
ghost use Rattle.session_desk.specs.Reading.{IsTaken};
ghost use Rattle.session_desk.specs.Answers.{usage_text, answer_of};
ghost use Rattle.session_desk.specs.Births.{birth_due, IsBirthMoment, IsBorn};
ghost use Rattle.store_image.specs.Stores.{IsSound};
ghost use Rattle.session_desk.specs.Headline.{Serves, IsComplete, LeavesUnopened, HasDueLines};
ghost use Rattle.session_desk.specs.Costs.{session_work};

use crate::birth::init;
use crate::once::run_once;
use crate::reading::INPUT_LIMIT;
use crate::saying::say;
use crate::serve::serve;
use crate::status::Status;
use crate::trial::run_trial;
use crate::words::{Task, read_words};
use event_feed::Watcher;
use site_disk::{Site, Source};
use std::alloc::Global;
use std::sync::ledger::Ledger;
use vec_record::Steps;

const USAGE: &[u8] =
    b"usage: once METRIC DIM EPS MINPTS, init METRIC DIM EPS MINPTS CAP, serve, check, trial SEED COUNT\n";

/// Runs the program: the words after its name, the input, the site that answers go to, and the
/// watchers of a session, in the slots from 1 on.
///
/// The words are judged before anything is read; then the store, where they ask for one; then the
/// length of the input, and its records. After a fault of the site or the source, or want of
/// memory, the run has ended and nothing more is said.
pub fn run<S: Source, T: Site, L: Ledger>(
    alloc: Global,
    words: &[String],
    source: &mut S,
    site: &mut T,
    watchers: Vec<Box<dyn Watcher>>,
    steps: &mut Steps<L>,
) -> Status
    // `serve`, the headline: answers, crash and end, over a content that doesn't open or whose
    // lines are those that are due. Completeness: where no count of faults rose, the status is
    // the session's, or memory was wanting.
    ensures serves { IsTrue S.tells → IsTrue T.tells
        → command_of (map string_bytes words.now) ≡ Some Serve
        → HasDueLines (T.state site.old).content
        → Serves (filled ⟦<Box<dyn Watcher> as Watcher>⟧.says_after watchers.items)
        (S.left source.old) (S.left source.new) result (T.state site.old) (T.state site.new) }
    ensures complete { IsTrue S.tells → IsTrue T.tells
        → command_of (map string_bytes words.now) ≡ Some Serve
        → HasDueLines (T.state site.old).content
        → (Rose (S.faults source.old) (S.faults source.new) → ⊥)
        → (Rose (T.faults site.old) (T.faults site.new) → ⊥)
        → IsComplete (filled ⟦<Box<dyn Watcher> as Watcher>⟧.says_after watchers.items)
        (S.left source.old) result (T.state site.old) }
    // How many distances it takes: eight for each record that a sound store opens with, the work of
    // each accepted batch, and two for each record there at a line `near`.
    ensures work { IsTrue S.tells → IsTrue T.tells
        → command_of (map string_bytes words.now) ≡ Some Serve
        → IsSound (T.state site.old).content
        → steps.new ≤ steps.old + session_work (T.state site.old).content
        (filled ⟦<Box<dyn Watcher> as Watcher>⟧.says_after watchers.items) (S.left source.old) }
    ensures unopened { IsTrue T.tells → command_of (map string_bytes words.now) ≡ Some Serve
        → LeavesUnopened result (T.state site.old) (T.state site.new) }
    ensures ended { IsTrue S.tells → command_of (map string_bytes words.now) ≡ Some Serve
        → (result ≡ Status.Fine) ⊎ (result ≡ Status.Refused) → S.left source.new ≡ [] }

    // `init`: the status and the text that are due, and at every moment an image of the start, a
    // blank one, or the new store.
    ensures birth_status { (v : Values) → IsTrue T.tells
        → command_of (map string_bytes words.now) ≡ Some (Init v)
        → is_fault result ≡ false
        → result ≡ (birth_due (is_blank (T.state site.old).content)).status }
    ensures birth_text { (v : Values) → IsTrue T.tells
        → command_of (map string_bytes words.now) ≡ Some (Init v)
        → is_fault result ≡ false
        → (T.state site.new).said
        ≡ (T.state site.old).said ++ (birth_due (is_blank (T.state site.old).content)).text }
    ensures birth { (v : Values) → IsTrue T.tells
        → command_of (map string_bytes words.now) ≡ Some (Init v)
        → Safe (T.state site.old) (T.state site.new) (IsBirthMoment v (T.state site.old)) }
    ensures born { (v : Values) → IsTrue T.tells
        → command_of (map string_bytes words.now) ≡ Some (Init v)
        → IsBorn v result (T.state site.old) (T.state site.new) }
    ensures birth_unread { (v : Values) → IsTrue S.tells
        → command_of (map string_bytes words.now) ≡ Some (Init v)
        → S.left source.new ≡ S.left source.old }
    ensures birth_answers { (v : Values) → command_of (map string_bytes words.now) ≡ Some (Init v)
        → (result ≡ Status.Fine) ⊎ (result ≡ Status.Exists)
        ⊎ (result ≡ Status.SiteFault) ⊎ (result ≡ Status.Memory) }

    // `once` and refused words: the status and the text are those that are due to the words and the
    // whole input, and the content and the images are left alone.
    ensures status { IsTrue S.tells
        → asks_more (command_of (map string_bytes words.now)) ≡ false
        → is_fault result ≡ false
        → result
        ≡ (answer_of (setting_of (map string_bytes words.now)) (S.left source.old)).status }
    ensures says { IsTrue S.tells → IsTrue T.tells
        → asks_more (command_of (map string_bytes words.now)) ≡ false
        → Says (answer_of (setting_of (map string_bytes words.now)) (S.left source.old)).text result
        (T.state site.old) (T.state site.new) }
    ensures alone { IsTrue T.tells
        → asks_more (command_of (map string_bytes words.now)) ≡ false
        → LeavesAlone (T.state site.old) (T.state site.new) }
    ensures quiet { IsTrue T.tells
        → asks_more (command_of (map string_bytes words.now)) ≡ false
        → (result ≡ Status.SourceFault) ⊎ (result ≡ Status.Memory)
        → (T.state site.new).said ≡ (T.state site.old).said }
    ensures once_ended { IsTrue S.tells
        → asks_more (command_of (map string_bytes words.now)) ≡ false
        → (result ≡ Status.Fine) ⊎ (result ≡ Status.Refused) → S.left source.new ≡ [] }

    // `trial`: the text that is due to the seed and the count; nothing is read, and the content and
    // the images are left alone.
    ensures trial_status { (seed count : ℕ)
        → command_of (map string_bytes words.now) ≡ Some (Trial seed count)
        → (result ≡ Status.Fine) ⊎ (result ≡ Status.SiteFault) ⊎ (result ≡ Status.Memory) }
    ensures trial_says { (seed count : ℕ) → IsTrue T.tells
        → command_of (map string_bytes words.now) ≡ Some (Trial seed count)
        → Says (trial_text seed count) result (T.state site.old) (T.state site.new) }
    ensures trial_alone { (seed count : ℕ) → IsTrue T.tells
        → command_of (map string_bytes words.now) ≡ Some (Trial seed count)
        → LeavesAlone (T.state site.old) (T.state site.new) }
    ensures trial_unread { (seed count : ℕ) → IsTrue S.tells
        → command_of (map string_bytes words.now) ≡ Some (Trial seed count)
        → S.left source.new ≡ S.left source.old }
    ensures trial_quiet { (seed count : ℕ) → IsTrue T.tells
        → command_of (map string_bytes words.now) ≡ Some (Trial seed count)
        → result ≡ Status.Memory
        → (T.state site.new).said ≡ (T.state site.old).said }
    ensures trial_work { (seed count : ℕ)
        → command_of (map string_bytes words.now) ≡ Some (Trial seed count)
        → steps.new ≤ steps.old + trial_work seed count }

    // Words of no known form end with the usage line, and nothing is read.
    ensures words { result ≡ Status.Words → command_of (map string_bytes words.now) ≡ None }
    ensures refused { command_of (map string_bytes words.now) ≡ None
        → (result ≡ Status.Words) ⊎ (result ≡ Status.SiteFault) }
    ensures usage { IsTrue T.tells → result ≡ Status.Words
        → (T.state site.new).said ≡ (T.state site.old).said ++ usage_text }
    ensures unread { IsTrue S.tells → command_of (map string_bytes words.now) ≡ None
        → S.left source.new ≡ S.left source.old }

    // For all words: moments join through the whole call, what is said comes behind what was said,
    // and a fault has its cause.
    ensures joins { IsTrue T.tells → Joins (T.state site.old) (T.state site.new) }
    ensures begins { IsTrue T.tells
        → (more : List ℕ) × ((T.state site.new).said ≡ (T.state site.old).said ++ more) }
    ensures site { result ≡ Status.SiteFault → Rose (T.faults site.old) (T.faults site.new) }
    ensures source { result ≡ Status.SourceFault
        → Rose (S.faults source.old) (S.faults source.new) }

    // What is taken of the source: at most one byte past the limit.
    ensures taken { IsTrue S.tells
        → IsTaken (INPUT_LIMIT + 1) (S.left source.old) (S.left source.new) }
    ensures source_later { S.faults source.old ≤ S.faults source.new }
    ensures site_later { T.faults site.old ≤ T.faults site.new }
{
    match read_words(words) {
        None => say(site, Status::Words, USAGE),
        Some(Task::Once(params)) => run_once(alloc, &params, source, site, steps),
        Some(Task::Init(params)) => init(alloc, &params, site),
        Some(Task::Serve) => serve(alloc, source, site, watchers, steps),
        Some(Task::Trial(trial)) => run_trial(alloc, trial, site, steps),
    }
}
