//! What a site promises.

ghost use Rattle.std.specs.Prelude.{◌≡◌, ◌≤◌, ◌+◌, ◌-◌, ◌^◌, ℕ, length, Bool, IsTrue, IfOk};
ghost use Rattle.site_disk.specs.Causes.{HasCause};
ghost use Rattle.site_disk.specs.State.{SiteState, IsNow};
ghost use Rattle.site_disk.specs.Calls.{Stays, Writes, Syncs, Speaks, Reads};

use crate::source::Failed;

/// One device: a file and the outlet for answers, with one clock.
pub trait Site {
    /// Whether sites of this type tell. So it stays the same through every call.
    ghost tells: { Bool };

    /// What the site tells.
    ghost state: { Self → SiteState };

    /// How often a call has failed. It never falls.
    ghost faults: { Self → ℕ };

    /// The length of the content.
    fn len(&mut self) -> Result<u64, Failed>
        ensures cause { HasCause (faults self.old) (faults self.new) result }
        ensures bound { IfOk result (λ n. n ≤ 2 ^ 63 - 1) }
        ensures length { IsTrue tells → IfOk result (λ n. n ≡ length (state self.old).content) }
        ensures told { IsTrue tells → Stays (state self.old) (state self.new) };

    /// Fills `into` from the offset `at` on. Bytes past the end read as zero.
    fn read(&mut self, at: u64, into: &mut [u8]) -> Result<(), Failed>
        ensures cause { HasCause (faults self.old) (faults self.new) result }
        ensures read { IsTrue tells → Reads at result into.new (state self.old).content }
        ensures told { IsTrue tells → Stays (state self.old) (state self.new) };

    /// Writes bytes at the offset `at`. A gap that it leaves reads as zero.
    fn write_at(&mut self, at: u64, bytes: &[u8]) -> Result<(), Failed>
        requires { at + length bytes.now ≤ 2 ^ 63 - 1 }
        ensures cause { HasCause (faults self.old) (faults self.new) result }
        ensures told { IsTrue tells
            → Writes at bytes.now result (state self.old) (state self.new) };

    /// Makes the content the only image, until the next write.
    fn sync(&mut self) -> Result<(), Failed>
        ensures cause { HasCause (faults self.old) (faults self.new) result }
        ensures told { IsTrue tells → Syncs result (state self.old) (state self.new) };

    /// Appends to the bytes said. A failed call has said a prefix of them.
    fn say(&mut self, bytes: &[u8]) -> Result<(), Failed>
        ensures cause { HasCause (faults self.old) (faults self.new) result }
        ensures told { IsTrue tells → Speaks bytes.now result (state self.old) (state self.new) };

    /// The law of the clock, of what is read, and of the images.
    ghost is_now: { (site : Self) → IsTrue tells → IsNow (state site) };
}
