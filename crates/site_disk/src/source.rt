//! What a source of input promises.

ghost use Rattle.std.specs.Prelude.{◌≡◌, ◌≤◌, ℕ, Bool, List, length, IsTrue, IfOk};
ghost use Rattle.site_disk.specs.Causes.{HasCause};
ghost use Rattle.site_disk.specs.Takes.{Takes};

/// A call on the outside failed.
#[derive(Clone, Copy, Debug, PartialEq, Eq)]
pub struct Failed;

/// Where input comes from.
pub trait Source {
    /// Whether sources of this type tell which bytes are left.
    ghost tells: { Bool };

    /// The bytes that are left, where they are told.
    ghost left: { Self → List ℕ };

    /// How often a call has failed. It never falls.
    ghost faults: { Self → ℕ };

    /// Gives the next bytes, at most as many as `into` holds, and none only at the end of the input
    /// or where `into` is empty.
    fn take(&mut self, into: &mut [u8]) -> Result<usize, Failed>
        ensures cause { HasCause (faults self.old) (faults self.new) result }
        ensures bound { IfOk result (λ n. n ≤ length into.new) }
        ensures told { IsTrue tells → Takes result into.new (left self.old) (left self.new) };
}
