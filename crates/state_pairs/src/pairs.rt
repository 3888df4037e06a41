//! The pairs of states of an automaton, and the words that tell them apart.

ghost use Rattle.std.specs.Prelude.{◌≡◌, ◌<◌, ◌≤◌, ◌↔◌, length, IsTrue, IfOk, IfSome};
ghost use Rattle.state_pairs.specs.PairGraph.{pair_of, step_or_none};
ghost use Rattle.state_pairs.specs.Pairs.{HasExtraWord, IsLeastExtra};

use crate::goals::Graph;
use crate::search::{least_word, levels};
use dfa_table::Dfa;
use rpq_base::Memory;
use std::alloc::Global;
use std::marker::Model;

/// The step of the state, or the number after the last state where there is none.
fn next_or_none(dfa: &Dfa, state: u32, label: u32) -> u32
    ensures step { result ≡ step_or_none dfa.now state label }
    ensures within { result ≤ length dfa.now.rows }
{
    let states = dfa.states();
    if state >= states {
        return states;
    }
    match dfa.step(state, label) {
        Some(next) => next,
        None => states,
    }
}

/// The node of the pair. The first may also be the number after the last state, for none.
fn pair(dfa: &Dfa, first: u32, second: u32) -> u32
    requires first { first ≤ length dfa.now.rows }
    requires second { second < length dfa.now.rows }
    ensures { result ≡ pair_of dfa.now first second }
{
    first * dfa.states() + second
}

/// The graph of the pairs: both states go one step on. The goals are the pairs whose second is
/// final and whose first is neither final nor the start.
#[derive(Drop)]
struct PairGraph<'a> {
    dfa: &'a Dfa,
}

impl<'a> Graph for PairGraph<'a> {
    ghost use Rattle.state_pairs.specs.PairGraph.{pair_graph};

    ghost graph = { λ pairs. pair_graph pairs.dfa.now };

    fn node_count(&self) -> u32 {
        let states = self.dfa.states();
        (states + 1) * states
    }

    fn label_count(&self) -> u32 {
        self.dfa.labels().len() as u32
    }

    fn step(&self, node: u32, label: u32) -> Option<u32> {
        let states = self.dfa.states();
        match self.dfa.step(node % states, label) {
            Some(next) => Some(pair(self.dfa, next_or_none(self.dfa, node / states, label), next)),
            None => None,
        }
    }

    fn is_goal(&self, node: u32) -> bool {
        let states = self.dfa.states();
        let first = node / states;
        self.dfa.is_final(node % states)
            && !(first < states && self.dfa.is_final(first))
            && first != 0
    }
}

/// For each two states of an automaton whether the second accepts a word that the first doesn't,
/// and the least length of such a word. The first may also be none, which accepts no word.
///
/// The empty word doesn't count where the first is the start, since that state is never final,
/// whatever the language. Contracts see the table as its automaton.
#[derive(Drop)]
pub struct PairTable<'a> {
    dfa: &'a Dfa,
    /// The levels of the pairs.
    levels: Vec<Option<u32>>,
}

impl<'a> Model for PairTable<'a> {
    ghost use Rattle.dfa_table.specs.DfaValue.{DfaValue};
    ghost use Rattle.state_pairs.specs.Goals.{AreLevels};
    ghost use Rattle.state_pairs.specs.PairGraph.{pair_graph};

    ghost Value = { DfaValue };

    ghost view = { λ table. table.dfa.now };

    ghost invariant = { λ table. AreLevels (pair_graph table.dfa.now) table.levels.items };
}

impl<'a> PairTable<'a> {
    /// The table of the automaton. It goes once through the pairs of states and the labels, and
    /// once back through the steps of pairs, which it keeps meanwhile: a number of 32 bits for
    /// each two pairs with a step from the one to the other. The only error is [`Memory`].
    pub fn new(alloc: Global, dfa: &'a Dfa) -> Result<PairTable<'a>, Memory>
        ensures { IfOk result (λ table. table ≡ dfa.now) }
    {
        // the number of states is at most 513, so the pairs can be numbered
        dfa.states();
        let levels = levels(alloc, &PairGraph { dfa })?;
        Ok(PairTable { dfa, levels })
    }

    /// The automaton.
    pub fn dfa(&self) -> &'a Dfa
        ensures { result.now ≡ self.now }
    {
        self.dfa
    }

    /// Whether the second state accepts a word that the first doesn't. This is one index into the
    /// table.
    pub fn has_extra_word(&self, first: Option<u32>, second: u32) -> bool
        requires first { IfSome first (λ state. state < length self.now.rows) }
        requires second { second < length self.now.rows }
        ensures { IsTrue result ↔ HasExtraWord self.now first second }
    {
        let dfa = self.dfa;
        let first = first.unwrap_or(dfa.states());
        self.levels[pair(dfa, first, second) as usize].is_some()
    }

    /// The least word that the second state accepts and the first doesn't, as the numbers of its
    /// labels: the shortest, and of these the least label by label. There must be one. It goes
    /// once through the labels for each label of the word. The only error is [`Memory`].
    pub fn least_extra_word(
        &self,
        alloc: Global,
        first: Option<u32>,
        second: u32,
    ) -> Result<Vec<u32>, Memory>
        requires first { IfSome first (λ state. state < length self.now.rows) }
        requires second { second < length self.now.rows }
        requires some { HasExtraWord self.now first second }
        ensures { IfOk result (λ numbers. IsLeastExtra self.now first second numbers.items) }
    {
        let dfa = self.dfa;
        let first = first.unwrap_or(dfa.states());
        let node = pair(dfa, first, second);
        least_word(alloc, &PairGraph { dfa }, &self.levels, node)
    }
}
