//! Names that are bound so far, and how a term and an atom extend them.

ghost use Rattle.std.specs.Prelude.{◌≡◌, ◌↔◌, ℕ, List, length, Some, IfOk};
ghost use Rattle.join_bindings.specs.Bindings.{value_of};
ghost use Rattle.join_bindings.specs.Partial.{Bound, IsOpen};
ghost use Rattle.join_bindings.specs.Pairs.{pair};
ghost use Rattle.join_file.specs.Sound.{IsWithin, IsAtomWithin};
ghost use Rattle.join_bindings.specs.Partial.{MayBind, Binds, Clashes, MayTake, Agrees, Fits};
ghost use Rattle.join_bindings.specs.Partial.{IsFull};

use crate::binding::Binding;
use join_file::{JoinAtom, Term};
use rpq_base::{Memory, Name, TryClone};
use std::alloc::Global;
use std::marker::Model;

/// For each variable its name, if it is bound.
#[derive(Debug, Drop)]
pub(crate) struct PartialBinding {
    names: Vec<Option<Name>>,
}

impl Model for PartialBinding {
    ghost use Rattle.join_bindings.specs.Partial.{Bound};

    ghost Value = { Bound };

    ghost view = { λ partial. partial.names.items };
}

/// How a term stands to a name.
#[derive(Clone, Copy, Debug, PartialEq, Eq)]
enum TermMatch {
    /// It stands for it.
    Same,
    /// It stands for another one.
    Other,
    /// It is a variable that isn't bound.
    Open(usize),
}

fn same_or_other(known: &Name, name: &Name) -> TermMatch
    ensures same { result ≡ TermMatch.Same → known.now ≡ name.now }
    ensures other { result ≡ TermMatch.Other → known.now ≡ name.now → ⊥ }
    ensures open { (place : ℕ) → result ≡ TermMatch.Open place → ⊥ }
{
    if known == name {
        TermMatch::Same
    } else {
        TermMatch::Other
    }
}

/// How the term stands to the name, where these variables are bound.
fn compared(bound: &[Option<Name>], term: &Term, name: &Name) -> TermMatch
    requires { IsWithin (length bound.now) term.now }
    ensures same { result ≡ TermMatch.Same → Binds bound.now term.now name.now bound.now }
    ensures other { result ≡ TermMatch.Other → Clashes bound.now term.now name.now }
    ensures open { (place : ℕ) → result ≡ TermMatch.Open place → term.now ≡ Term.Variable place }
    ensures free { (place : ℕ) → result ≡ TermMatch.Open place → IsOpen bound.now place }
{
    match term {
        Term::Vertex(vertex) => same_or_other(vertex, name),
        Term::Variable(number) => {
            let place = *number as usize;
            match &bound[place] {
                Some(known) => same_or_other(known, name),
                None => TermMatch::Open(place),
            }
        }
    }
}

/// The name by a copy, if there is one.
fn copy_of(name: &Option<Name>) -> Result<Option<Name>, Memory>
    ensures { IfOk result (λ copy. copy ≡ name.now) }
{
    match name {
        Some(name) => Ok(Some(name.copy()?)),
        None => Ok(None),
    }
}

impl PartialBinding {
    /// Binds the term to the name; none where it stands for another name.
    fn bind(mut self, term: &Term, name: &Name) -> Result<Option<PartialBinding>, Memory>
        requires { IsWithin (length self) term.now }
        ensures { IfOk result (λ given. MayBind self term.now name.now given) }
    {
        match compared(&self.names, term, name) {
            TermMatch::Same => Ok(Some(self)),
            TermMatch::Other => Ok(None),
            TermMatch::Open(place) => {
                self.names[place] = Some(name.copy()?);
                Ok(Some(self))
            }
        }
    }

    /// Nothing bound of so many variables.
    pub(crate) fn unbound(alloc: Global, count: u32) -> Result<PartialBinding, Memory>
        ensures many { IfOk result (λ blank. length blank ≡ count) }
        ensures all { IfOk result (λ blank. (names : List (List ℕ)) →
            Agrees blank names ↔ (length names ≡ count)) }
    {
        let mut names = Vec::new(alloc);
        for number in 0..count {
            names.push(None)?;
        }
        Ok(PartialBinding { names })
    }

    /// The binding, where nothing is open.
    pub(crate) fn closed(&self, alloc: Global) -> Result<Binding, Memory>
        requires { IsFull self.now }
        ensures { IfOk result (λ binding. (names : List (List ℕ)) →
            Agrees self.now names ↔ (binding ≡ names)) }
    {
        let mut list = Vec::new(alloc);
        for name in &self.names {
            if let Some(name) = name {
                list.push(name.copy()?)?;
            }
        }
        Ok(Binding { list })
    }

    /// The same by a copy.
    fn copied(&self, alloc: Global) -> Result<PartialBinding, Memory>
        ensures { IfOk result (λ copy. copy ≡ self.now) }
    {
        let mut names = Vec::new(alloc);
        for name in &self.names {
            names.push(copy_of(name)?)?;
        }
        Ok(PartialBinding { names })
    }

    /// The name that the term stands for, as far as it is bound.
    pub(crate) fn so_far<'a>(&'a self, term: &'a Term) -> Option<&'a Name>
        ensures { (names : List (List ℕ)) → Agrees self.now names →
            (name : List ℕ) → value_of names term.now ≡ Some name → Fits result name }
    {
        match term {
            Term::Vertex(vertex) => Some(vertex),
            Term::Variable(number) => match self.names.get(*number as usize) {
                Some(Some(name)) => Some(name),
                _ => None,
            },
        }
    }

    /// Binds the ends of the atom to these two; none where they stand for others.
    pub(crate) fn with_ends(
        &self,
        alloc: Global,
        atom: &JoinAtom,
        from: &Name,
        to: &Name,
    ) -> Result<Option<PartialBinding>, Memory>
        requires { IsAtomWithin (length self.now) atom.now }
        ensures { IfOk result (λ given. MayTake self.now atom.now (pair from.now to.now) given) }
    {
        match self.copied(alloc)?.bind(&atom.from, from)? {
            Some(more) => more.bind(&atom.to, to),
            None => Ok(None),
        }
    }
}
