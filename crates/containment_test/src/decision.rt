//! The decision.

ghost use Rattle.std.specs.Prelude.{◌≡◌, ◌<◌, All, IfOk, length, map};
ghost use Rattle.dfa_table.specs.DfaValue.{label_at};
ghost use Rattle.dfa_table.specs.Runs.{Accepts};
ghost use Rattle.containment_test.specs.Verdict.{IsVerdict};

use crate::front::least_front;
use crate::needed::all_needed;
use crate::verdict::Verdict;
use dfa_table::Dfa;
use rpq_base::{Memory, TryClone, Word};
use state_pairs::PairTable;
use std::alloc::Global;

/// The word of the labels of these numbers.
fn spell(alloc: Global, dfa: &Dfa, numbers: &[u32]) -> Result<Word, Memory>
    requires { All (λ number. number < length dfa.now.labels) numbers.now }
    ensures { IfOk result (λ word. word ≡ map (label_at dfa.now) numbers.now) }
{
    let all = dfa.labels();
    let mut labels = Vec::with_capacity(alloc, numbers.len())?;
    for number in numbers {
        labels.push(all[*number as usize].copy()?)?;
    }
    Ok(Word { labels })
}

/// Whether the language of the automaton has the property of containment: from each of its words
/// a part may be left out, if what stays isn't empty. Where it hasn't, the least three words that
/// show it. The only error is [`Memory`].
///
/// It makes a table of the pairs of states, in time and memory in proportion to the pairs and the
/// labels, and goes once through the states and the labels. Source: the containment property of A.
/// O. Mendelzon and P. T. Wood, Finding regular simple paths in graph databases, SIAM Journal on
/// Computing, 1995; that it is said of words, and leaves the empty word out, is this project's own.
pub fn contained(alloc: Global, dfa: &Dfa) -> Result<Verdict, Memory>
    ensures { IfOk result (λ verdict. IsVerdict (Accepts dfa.now) verdict) }
{
    let pairs = PairTable::new(alloc, dfa)?;
    let needed = all_needed(alloc, &pairs)?;
    let Some(front) = least_front(alloc, dfa, &needed)? else {
        return Ok(Verdict::Yes);
    };
    let rest = pairs.least_extra_word(alloc, Some(front.state), front.needed.next)?;
    let p = spell(alloc, dfa, &front.word)?;
    // where a longer part can't be left out after p, one of its labels can't
    let q = spell(alloc, dfa, &[front.needed.label])?;
    let w = spell(alloc, dfa, &rest)?;
    Ok(Verdict::No { p, q, w })
}
