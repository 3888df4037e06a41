//! One source after another.

ghost use Rattle.std.specs.Prelude.{◌≡◌, ℕ, ◌<◌, ◌≤◌, [], true, false, length, take, IfOk};
ghost use Rattle.std.specs.Prelude.{IsErr, IfSome, MatchResult, OnErr};
ghost use Rattle.std.specs.Io.KnownBytes.{prepend_known};
ghost use Rattle.rpq_io.specs.Counts.{CountsFault};
ghost use Rattle.rpq_io.specs.Reads.{tells_end};
ghost use Rattle.saved_window.specs.Then.{count_of, left_of_first, left_of_both, faults_of_first};
ghost use Rattle.saved_window.specs.Then.{faults_of_both, is_over, ReadsInOrder};

use rpq_io::{Failed, Source};
use std::marker::{Model, PhantomData};

/// Whether a source is read before the second one of a [`Then`]. A type says so, and no value, so
/// that it stays known whatever is read.
pub trait Prefix {
    /// How many sources are read before: none or one.
    ghost COUNT: { ℕ };
}

/// No source is read before.
#[derive(Clone, Copy, Debug)]
pub struct NoPrefix;

impl Prefix for NoPrefix {
    ghost COUNT = { 0 };
}

/// One source is read before.
#[derive(Clone, Copy, Debug)]
pub struct OnePrefix;

impl Prefix for OnePrefix {
    ghost COUNT = { 1 };
}

/// A source that gives the bytes of another to their end, and then those of a second one. There is a
/// first one exactly where the type `P` says so.
///
/// It takes no memory, and a read of it is one read of a source, or two where the first tells its
/// end.
#[derive(Drop)]
pub struct Then<S: Source, P: Prefix> {
    first: Option<S>,
    second: S,
    is_past_first: bool,
    front: PhantomData<P>,
}

impl<S: Source, P: Prefix> Model for Then<S, P> {
    ghost use Rattle.saved_window.specs.Then.{TwoSources, IsKnownOver};

    ghost Value = { TwoSources S };

    ghost view = { λ then. record { first = then.first; second = then.second } };

    ghost invariant = { λ then.
        IsKnownOver S.left S.has_told_end P.COUNT then.first then.is_past_first };
}

impl<S: Source, P: Prefix> Then<S, P> {
    /// The first source, if there is one, and then the second.
    pub fn new(first: Option<S>, second: S) -> Then<S, P>
        requires there { count_of first ≡ P.COUNT }
        requires untold { IfSome first (λ source. S.has_told_end source ≡ false) }
        ensures { result ≡ record { first = first; second = second } }
    {
        let is_past_first = first.is_none();
        Then {
            first,
            second,
            is_past_first,
            front: PhantomData,
        }
    }

    /// Both sources, as they stand after the bytes that were taken.
    pub fn parts(self) -> (Option<S>, S)
        ensures first { result.0 ≡ self.first }
        ensures second { result.1 ≡ self.second }
        ensures there { count_of result.0 ≡ P.COUNT }
    {
        let Then {
            first,
            second,
            is_past_first: _,
            front: _,
        } = self;
        (first, second)
    }

    /// Reads the first source, unless it is over: then there are 0 bytes.
    fn read_first(&mut self, into: &mut [u8]) -> Result<usize, Failed>
        requires { 0 < length into.old }
        ensures bound { IfOk result (λ count. count ≤ length into.new) }
        ensures moved { MatchResult result
            (λ count. left_of_first S.left self.old.first
            ≡ prepend_known (take count into.new) (left_of_first S.left self.new.first))
            (λ _. left_of_first S.left self.new.first ≡ left_of_first S.left self.old.first) }
        ensures over { result ≡ Ok 0 → is_over S.has_told_end self.new.first ≡ true }
        ensures none_left { result ≡ Ok 0 →
            IfSome (left_of_first S.left self.new.first) (λ rest. rest ≡ []) }
        ensures faults { CountsFault (IsErr result)
            (faults_of_first S.faults self.old.first) (faults_of_first S.faults self.new.first) }
        ensures first { is_over S.has_told_end self.old.first ≡ true →
            self.new.first ≡ self.old.first }
        ensures second { self.new.second ≡ self.old.second }
    {
        match &mut self.first {
            Some(first) if !self.is_past_first => {
                let count = first.read(into)?;
                self.is_past_first = count == 0;
                Ok(count)
            }
            _ => Ok(0),
        }
    }
}

impl<S: Source, P: Prefix> Source for Then<S, P> {
    ghost left = { λ then. left_of_both S.left then };

    ghost has_told_end = { λ then. S.has_told_end then.second };

    ghost faults = { λ then. faults_of_both S.faults then };

    /// Reads the first source, and the second where the first is over, or tells its end now.
    fn read(&mut self, into: &mut [u8]) -> Result<usize, Failed>
        requires room { 0 < length into.old }
        requires untold { S.has_told_end self.old.second ≡ false }
        ensures bound { IfOk result (λ count. count ≤ length into.new) }
        ensures taken { IfOk result (λ count. left_of_both S.left self.old
            ≡ prepend_known (take count into.new) (left_of_both S.left self.new)) }
        ensures end { result ≡ Ok 0 → IfSome (left_of_both S.left self.new) (λ rest. rest ≡ []) }
        ensures told { S.has_told_end self.new.second ≡ tells_end result }
        ensures err { OnErr result (left_of_both S.left self.new ≡ left_of_both S.left self.old) }
        ensures faults { CountsFault (IsErr result)
            (faults_of_both S.faults self.old) (faults_of_both S.faults self.new) }
        ensures order { ReadsInOrder S.has_told_end S.faults self.old self.new result }
    {
        let count = self.read_first(into)?;
        if count > 0 {
            return Ok(count);
        }
        self.second.read(into)
    }
}
