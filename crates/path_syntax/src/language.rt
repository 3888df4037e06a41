//! Languages, for laws that hold of each of them.

/// A language: a set of words. Only contracts see which words are in it.
pub trait Language {
    ghost use Rattle.std.specs.Prelude.{List};
    ghost use Rattle.rpq_base.specs.declared.data.Label.{Label};

    ghost contains: { Self → List Label → Type 0 };
}
