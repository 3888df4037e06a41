//! The tuple at a position, and the seeds.

ghost use Rattle.std.specs.Prelude.{ℕ, ◌≡◌, ◌^◌, ◌<◌, ◌≤◌, IfOk};
ghost use Rattle.rpq_base.specs.declared.data.TheConstants.{MAX_TIME};
ghost use Rattle.rpq_base.specs.Names.{IsName};
ghost use Rattle.rpq_base.specs.Plain.{IsPlainLabel, IsPlainAct, IsPlainTuple};
ghost use Rattle.rpq_base.specs.TupleValue.{IsInRange};
ghost use Rattle.tuple_generator.specs.Seeds.{next_seed, number_of};
ghost use Rattle.tuple_generator.specs.Generator.{vertex_of, label_of, edge_of, act_of};
ghost use Rattle.tuple_generator.specs.Generator.{generated_tuple, seed_after};

use rpq_base::{Act, Edge, Label, Memory, Name, NameFault, Tuple};
use std::alloc::Global;

/// The tuple at a position, from 1, made with the seed before it, and the seed that the next tuple
/// is made with. The first tuple is made with the seed 1. The only error is [`Memory`].
///
/// Source: the sample `rand` of the C standard (ISO/IEC 9899), a linear congruential generator.
#[tactic(auto, unfolding(crate::specs::Generator::generated_tuple))]
pub fn generated(alloc: Global, position: u64, seed: u64) -> Result<(Tuple, u64), Memory>
    requires first { 1 ≤ position }
    requires last { position ≤ 1000000 }
    requires seed { seed < 2 ^ 31 }
    ensures tuple { IfOk result (λ made. made.0 ≡ generated_tuple position seed) }
    ensures plain { IfOk result (λ made. IsPlainTuple made.0) }
    ensures next { IfOk result (λ made. made.1 ≡ seed_after seed) }
    ensures below { IfOk result (λ made. made.1 < 2 ^ 31) }
{
    let first = next_seed(seed);
    let second = next_seed(first);
    let third = next_seed(second);
    let edge = drawn_edge(alloc, number_of(first), number_of(second), number_of(third))?;
    let act = drawn_act(number_of(third), edge);
    let tuple = Tuple {
        time: position,
        act,
    };
    Ok((tuple, third))
}

/// The seed that follows a seed.
#[tactic(auto, unfolding(crate::specs::Seeds::next_seed))]
fn next_seed(seed: u64) -> u64
    requires { seed < 2 ^ 31 }
    ensures next { result ≡ next_seed seed }
    ensures below { result < 2 ^ 31 }
{
    (seed * 1_103_515_245 + 12_345) % (1 << 31)
}

/// The number that is drawn with a seed.
fn number_of(seed: u64) -> u64
    ensures { result ≡ number_of seed }
{
    seed / 65_536
}

/// The edge with the source, the target and the label that three numbers choose.
fn drawn_edge(alloc: Global, source: u64, target: u64, choice: u64) -> Result<Edge, Memory>
    ensures edge { IfOk result (λ edge. edge ≡ edge_of source target choice) }
    ensures plain { IfOk result (λ edge. IsPlainLabel edge.label) }
{
    let from = vertex(alloc, source)?;
    let name = label_name(alloc, choice)?;
    let to = vertex(alloc, target)?;
    let label = Label { name, back: false };
    Ok(Edge { from, label, to })
}

/// What a number does with an edge: one number of sixteen deletes it, the others insert it.
fn drawn_act(choice: u64, edge: Edge) -> Act
    requires { IsPlainLabel edge.label }
    ensures act { result ≡ act_of choice edge }
    ensures plain { IsPlainAct result }
    ensures within { (time : ℕ) → time ≤ MAX_TIME → IsInRange time result }
{
    if choice % 16 == 15 {
        Act::Delete(edge)
    } else {
        Act::Insert { edge, until: None }
    }
}

/// The vertex that a number chooses: `v` and the last two digits, without a zero in front.
fn vertex(alloc: Global, number: u64) -> Result<Name, Memory>
    ensures { IfOk result (λ name. name ≡ vertex_of number) }
{
    let tens = (number / 10 % 10) as u8;
    let ones = (number % 10) as u8;
    if tens == 0 {
        named(alloc, &[b'v', b'0' + ones])
    } else {
        named(alloc, &[b'v', b'0' + tens, b'0' + ones])
    }
}

/// The name of the label that a number chooses.
#[tactic(auto, unfolding(rpq_base::specs::Names::is_name))]
fn label_name(alloc: Global, choice: u64) -> Result<Name, Memory>
    ensures { IfOk result (λ name. name ≡ label_of choice) }
{
    match choice % 3 {
        0 => named(alloc, b"a"),
        1 => named(alloc, b"b"),
        _ => named(alloc, b"c"),
    }
}

/// The name with these bytes, which are one.
fn named(alloc: Global, bytes: &[u8]) -> Result<Name, Memory>
    requires { IsName bytes.now }
    ensures { IfOk result (λ name. name ≡ bytes.now) }
{
    Name::of(alloc, bytes)
}
