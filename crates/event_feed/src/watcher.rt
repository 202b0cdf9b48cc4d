//! What a watcher is.

ghost use Rattle.std.specs.Prelude.{◌≡◌, ℕ, List, [], ◌∷◌, ◌++◌, OnOk, OnErr};
ghost use Rattle.vec_record.specs.declared.event.Event.{Event};

use std::alloc::AllocError;
use vec_record::{Bytes, Event};

/// Something that is told events and says a text. It has one meaning, which takes a list of events:
/// the text that it says after these further events.
pub trait Watcher: Drop {
    /// The text that it says after further events.
    ghost says_after: { Self → List Event → List ℕ };

    /// Tells it an event. It takes no memory.
    fn tell(&mut self, event: Event)
        ensures { (more : List Event)
            → says_after self.new more ≡ says_after self.old (event ∷ more) };

    /// Appends the text that it says. After want of memory the bytes are as before.
    fn text(&self, out: &mut Bytes) -> Result<(), AllocError>
        ensures ok { OnOk result (out.new ≡ out.old ++ says_after self.now []) }
        ensures err { OnErr result (out.new ≡ out.old) };
}

// A boxed watcher means what the watcher in the box means.
impl Watcher for Box<dyn Watcher> {
    ghost says_after = { λ b. (Watcher-box b).says_after b.value };

    fn tell(&mut self, event: Event) {
        (**self).tell(event);
    }

    fn text(&self, out: &mut Bytes) -> Result<(), AllocError> {
        (**self).text(out)
    }
}
