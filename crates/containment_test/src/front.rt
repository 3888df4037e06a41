//! The least word to a state after which some label can't be left out.

ghost use Rattle.std.specs.Prelude.{◌≡◌, ◌<◌, List, ℕ, length, IfNone, IfOk, IfSome};
ghost use Rattle.dfa_table.specs.Runs.{walk};
ghost use Rattle.state_pairs.specs.Goals.{ReachesGoal};
ghost use Rattle.containment_test.specs.Needed.{AreNeeded, IsFront, state_graph};

use crate::needed::NeededLabel;
use dfa_table::Dfa;
use rpq_base::Memory;
use state_pairs::{Graph, least_word, levels};
use std::alloc::Global;

/// The graph of the states; the goals are those after which some label can't be left out.
#[derive(Drop)]
struct StateGraph<'a> {
    dfa: &'a Dfa,
    /// For each state the least such label.
    needed: &'a [Option<NeededLabel>],
}

impl<'a> Graph for StateGraph<'a> {
    ghost use Rattle.containment_test.specs.Needed.{state_graph};

    ghost graph = { λ states. state_graph states.dfa.now states.needed.now };

    fn node_count(&self) -> u32 {
        self.dfa.states()
    }

    fn label_count(&self) -> u32 {
        self.dfa.labels().len() as u32
    }

    fn step(&self, node: u32, label: u32) -> Option<u32> {
        self.dfa.step(node, label)
    }

    fn is_goal(&self, node: u32) -> bool {
        match self.needed.get(node as usize) {
            Some(needed) => needed.is_some(),
            None => false,
        }
    }
}

/// The least word that leads from the start to a state after which a label can't be left out, as
/// the numbers of its labels; the state, and its least such label.
#[derive(Drop)]
pub struct WordFront {
    pub word: Vec<u32>,
    pub state: u32,
    pub needed: NeededLabel,
}

/// The state that the word leads to from the start.
fn end_of(dfa: &Dfa, word: &[u32]) -> Option<u32>
    ensures end { result ≡ walk dfa.now 0 word.now }
    ensures within { IfSome result (λ state. state < length dfa.now.rows) }
{
    // the number of states is at least 1: there is a start
    dfa.states();
    let mut state = 0;
    for label in word {
        match dfa.step(state, *label) {
            Some(next) => state = next,
            None => return None,
        }
    }
    Some(state)
}

/// The front, or none where no word leads to such a state.
pub fn least_front(
    alloc: Global,
    dfa: &Dfa,
    needed: &[Option<NeededLabel>],
) -> Result<Option<WordFront>, Memory>
    requires { AreNeeded dfa.now needed.now }
    ensures some { IfOk result (λ front. IfSome front (λ front.
        IsFront dfa.now needed.now front.word.items front.state front.needed)) }
    ensures none { IfOk result (λ front. IfNone front
        ((word : List ℕ) → ReachesGoal (state_graph dfa.now needed.now) 0 word → ⊥)) }
{
    let graph = StateGraph { dfa, needed };
    let levels = levels(alloc, &graph)?;
    if levels[0].is_none() {
        return Ok(None);
    }
    let word = least_word(alloc, &graph, &levels, 0)?;
    // the word leads to a state, which has such a label
    let Some(state) = end_of(dfa, &word) else {
        return Ok(None);
    };
    match needed[state as usize] {
        Some(needed) => Ok(Some(WordFront {
            word,
            state,
            needed,
        })),
        None => Ok(None),
    }
}
