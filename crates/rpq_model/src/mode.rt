//! Which paths a query takes.

/// Which paths a query takes.
///
/// Source: the two path semantics of Pacaci, Bonifati and Özsu, SIGMOD 2020.
#[derive(Clone, Copy, Debug, PartialEq, Eq)]
pub enum Mode {
    /// All paths.
    Arbitrary,
    /// The paths that visit no vertex twice.
    Simple,
}
