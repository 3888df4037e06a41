//! Shares of the roots.

ghost use Rattle.std.specs.Prelude.{◌≡◌, ℕ, ◌<◌, ◌↔◌, IsTrue};
ghost use Rattle.wide_search.specs.Shares.{Owns};

/// The roots whose number leaves this remainder by that count. The shares of one count have each
/// root once, so that a worker for each share can have a table of its own.
#[derive(Clone, Copy, Debug, PartialEq, Eq)]
pub struct Share {
    pub index: u32,
    pub count: u32,
}

impl Share {
    /// The share that has all roots.
    pub fn all() -> Share
        ensures some { 0 < result.count }
        ensures owns { (root : ℕ) → Owns result root }
    {
        Share { index: 0, count: 1 }
    }

    /// Whether the share has this root.
    pub fn owns(self, root: u32) -> bool
        requires { 0 < self.count }
        ensures { IsTrue result ↔ Owns self root }
    {
        root % self.count == self.index
    }
}
