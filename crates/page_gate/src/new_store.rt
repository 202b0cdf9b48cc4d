//! A new store, made in three steps.

ghost use Rattle.std.specs.Prelude.{◌≡◌, ◌≤◌, ◌<◌, ◌+◌, ◌-◌, ◌*◌, ◌^◌, ℕ, length, get_or, IsTrue};
ghost use Rattle.std.specs.Prelude.{OnOk};
ghost use Rattle.site_disk.specs.Causes.{HasCause};
ghost use Rattle.page_gate.specs.Gate.{count_of};
ghost use Rattle.page_gate.specs.Same.{IsOutside, IsOnly, Puts, Keeps, Leaves};
ghost use Rattle.page_gate.specs.Steps.{IsOther};
ghost use Rattle.page_gate.specs.Births.{IsBlank, Bare, Begins, IsZero, Newborn, IsGate};
ghost use Rattle.page_gate.specs.Promises.{IsUnborn, Bears};

use crate::page::Page;
use crate::steps::write_image;
use site_disk::{Failed, Site};

/// Closes the birth gate where the file has at most that byte. A longer blank file has a closed
/// one, and a torn write of it could show an open gate in front of foreign bytes.
fn clear_gate<T: Site>(site: &mut T, len: u64) -> Result<(), Failed>
    requires unborn { IsTrue T.tells → IsUnborn (T.state site.old) }
    requires len { IsTrue T.tells → len ≡ length (T.state site.old).content }
    ensures cause { HasCause (T.faults site.old) (T.faults site.new) result }
    ensures told { IsTrue T.tells
        → Leaves IsBlank Bare result (T.state site.old) (T.state site.new) }
{
    if len > 1 {
        return Ok(());
    }
    site.write_at(0, &[0])
}

/// The first step: the birth gate is closed.
fn close_birth<T: Site>(site: &mut T) -> Result<(), Failed>
    requires { IsTrue T.tells → IsUnborn (T.state site.old) }
    ensures cause { HasCause (T.faults site.old) (T.faults site.new) result }
    ensures told { IsTrue T.tells
        → Leaves IsBlank Bare result (T.state site.old) (T.state site.new) }
    ensures only { IsTrue T.tells → OnOk result (IsOnly (T.state site.new)) }
{
    let len = site.len()?;
    clear_gate(site, len)?;
    site.sync()
}

/// Writes the closed redo gate and the letters.
fn write_head<T: Site>(site: &mut T) -> Result<(), Failed>
    ensures cause { HasCause (T.faults site.old) (T.faults site.new) result }
    ensures told { IsTrue T.tells
        → Puts IsGate 8 (Begins 8) result (T.state site.old) (T.state site.new) }
{
    site.write_at(1, b"\0denswh")
}

/// Writes a piece of zeros.
fn write_zeros<T: Site>(site: &mut T, at: u64, zeros: &[u8]) -> Result<(), Failed>
    requires room { at + 712 ≤ 2 ^ 63 - 1 }
    requires long { length zeros.now ≡ 712 }
    requires zero { (i : ℕ) → get_or zeros.now i 0 ≡ 0 }
    ensures cause { HasCause (T.faults site.old) (T.faults site.new) result }
    ensures told { IsTrue T.tells
        → Puts (IsOutside at 712) (at + 712) (IsZero at 712) result (T.state site.old)
        (T.state site.new) }
{
    site.write_at(at, zeros)
}

/// Writes the rest of page 0 behind the letters: 23 pieces of 712 bytes.
fn clear_rest<T: Site>(site: &mut T, zeros: &[u8]) -> Result<(), Failed>
    requires long { length zeros.now ≡ 712 }
    requires zero { (i : ℕ) → get_or zeros.now i 0 ≡ 0 }
    requires begun { IsTrue T.tells → Begins 8 (T.state site.old).content }
    ensures cause { HasCause (T.faults site.old) (T.faults site.new) result }
    ensures told { IsTrue T.tells
        → Puts IsGate 16384 (Begins 16384) result (T.state site.old) (T.state site.new) }
{
    for k in 0..23 {
        write_zeros(site, 8 + 712 * k, zeros)?;
    }
    Ok(())
}

/// The second step: all but the birth gate is written.
fn lay_pages<T: Site>(site: &mut T, first: &Page) -> Result<(), Failed>
    ensures cause { HasCause (T.faults site.old) (T.faults site.new) result }
    ensures told { IsTrue T.tells
        → Keeps IsGate 32768 (Newborn first.now) result (T.state site.old) (T.state site.new) }
{
    write_head(site)?;
    let zeros = [0; 712];
    clear_rest(site, &zeros)?;
    write_image(site, 16384, first.as_slice())?;
    site.sync()
}

/// The third step: the birth gate is opened.
fn open_birth<T: Site>(site: &mut T) -> Result<(), Failed>
    ensures cause { HasCause (T.faults site.old) (T.faults site.new) result }
    ensures told { IsTrue T.tells
        → Keeps (IsOther 0) 1 (λ c. get_or c 0 0 ≡ 1) result (T.state site.old) (T.state site.new) }
{
    site.write_at(0, &[1])?;
    site.sync()
}

/// Makes a file of pages of a blank file, with this one page. At each moment a crash leaves a blank
/// file or the new one.
pub fn birth<T: Site>(site: &mut T, first: &Page) -> Result<(), Failed>
    requires count { count_of first.now ≡ 2 }
    requires unborn { IsTrue T.tells → IsUnborn (T.state site.old) }
    ensures cause { HasCause (T.faults site.old) (T.faults site.new) result }
    ensures told { IsTrue T.tells → Bears first.now result (T.state site.old) (T.state site.new) }
{
    close_birth(site)?;
    lay_pages(site, first)?;
    open_birth(site)
}
