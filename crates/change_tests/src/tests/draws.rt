//! Numbers that look drawn.

ghost use Rattle.std.specs.Prelude.{◌<◌};

/// Numbers that look drawn, each made of the one before.
#[derive(Drop)]
pub struct Draws {
    pub last: u32,
}

impl Draws {
    /// The next number, below `limit`.
    pub fn below(&mut self, limit: u32) -> u32
        requires { 0 < limit }
        ensures { result < limit }
    {
        self.last = self.last.wrapping_mul(1664525).wrapping_add(1013904223);
        (self.last >> 8) % limit
    }
}
