//! The feed: slots for watchers, numbered from 1.

ghost use Rattle.std.specs.Prelude.{◌≡◌, [], ◌∷◌, ◌++◌, IfOk, OnOk, OnErr};
ghost use Rattle.std.specs.Option.{option_map};
ghost use Rattle.event_feed.specs.Meanings.{meanings, filled, told, told_all, slot_at, is_full};
ghost use Rattle.event_feed.specs.Meanings.{text_at, without_slot};

use crate::watcher::Watcher;
use std::alloc::{AllocError, Global};
use vec_record::{Bytes, Event, Events};

/// The slots of boxed watchers.
pub type Feed = WatcherSlots<Box<dyn Watcher>>;

/// Slots for watchers, numbered from 1. A slot is a watcher or empty, and keeps its number.
#[derive(Drop)]
pub struct WatcherSlots<W> {
    pub slots: Vec<Option<W>>,
}

impl<W: Watcher> WatcherSlots<W> {
    /// A slot for each watcher, in their order.
    pub fn new(alloc: Global, watchers: Vec<W>) -> Result<WatcherSlots<W>, AllocError>
        ensures { IfOk result (λ feed. meanings W.says_after feed.slots.items
            ≡ filled W.says_after watchers.items) }
    {
        let mut slots = Vec::with_capacity(alloc, watchers.len())?;
        for watcher in watchers {
            slots.push(Some(watcher))?;
        }
        Ok(WatcherSlots { slots })
    }

    /// Tells the events, in order, to each watcher. It takes no memory.
    pub fn tell_all(&mut self, events: &Events)
        ensures { meanings W.says_after self.new.slots.items
            ≡ told_all events.now (meanings W.says_after self.old.slots.items) }
    {
        let events = events.as_slice();
        for slot in self.slots.iter_mut() {
            tell_slot(slot, events);
        }
    }

    /// Appends what the watcher of a slot says. It answers false exactly where the slot is 0, empty
    /// or past the end, and then the bytes are as before, as they are after want of memory.
    pub fn text_of(&self, slot: u32, out: &mut Bytes) -> Result<bool, AllocError>
        ensures full { IfOk result (λ full. full
            ≡ is_full slot (meanings W.says_after self.now.slots.items)) }
        ensures text { OnOk result (out.new
            ≡ out.old ++ text_at slot (meanings W.says_after self.now.slots.items)) }
        ensures err { OnErr result (out.new ≡ out.old) }
    {
        match self.watcher_at(slot) {
            Some(watcher) => {
                watcher.text(out)?;
                Ok(true)
            }
            None => Ok(false),
        }
    }

    // The watcher of a slot, or none where the slot is 0, empty or past the end.
    fn watcher_at(&self, slot: u32) -> Option<&W>
        ensures { slot_at slot (meanings W.says_after self.now.slots.items)
            ≡ option_map (λ w. W.says_after w.now) result }
    {
        if slot == 0 {
            return None;
        }
        match self.slots.get(slot as usize - 1) {
            Some(slot) => slot.as_ref(),
            None => None,
        }
    }

    /// Empties a slot; its watcher is dropped at once. It answers false exactly where the slot is
    /// 0, empty or past the end, and then all is as before. The other slots keep their numbers.
    pub fn drop_one(&mut self, slot: u32) -> bool
        ensures full { result ≡ is_full slot (meanings W.says_after self.old.slots.items) }
        ensures slots { meanings W.says_after self.new.slots.items
            ≡ without_slot slot (meanings W.says_after self.old.slots.items) }
    {
        if slot == 0 {
            return false;
        }
        match self.slots.get_mut(slot as usize - 1) {
            Some(slot) => slot.take().is_some(),
            None => false,
        }
    }
}

// Tells events, in order, to the watcher of a slot where it has one.
fn tell_slot<W: Watcher>(slot: &mut Option<W>, events: &[Event])
    ensures { option_map W.says_after slot.new
        ≡ option_map (told events.now) (option_map W.says_after slot.old) }
{
    if let Some(watcher) = slot {
        tell_each(watcher, events);
    }
}

// Tells events to a watcher, in order.
fn tell_each<W: Watcher>(watcher: &mut W, events: &[Event])
    ensures { W.says_after watcher.new ≡ told events.now (W.says_after watcher.old) }
{
    for event in events {
        tell_one(watcher, *event);
    }
}

// Tells an event to a watcher.
fn tell_one<W: Watcher>(watcher: &mut W, event: Event)
    ensures { W.says_after watcher.new ≡ told (event ∷ []) (W.says_after watcher.old) }
{
    watcher.tell(event);
}
