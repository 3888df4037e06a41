//! What a value under the lock tells.
ghost use Rattle.std.specs.Prelude.{ℕ, List};

/// A value that threads take in turn.
pub trait Kept: Drop {
    /// What a turn adds.
    type Line;

    /// The part of the value that no turn changes.
    type Fixed;

    ghost lines: { Self → List Self.Line };

    ghost fixed: { Self → Self.Fixed };

    // The number of the pass that added the line.
    ghost author: { Self.Line → ℕ };
}
