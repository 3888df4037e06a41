//! The search by levels: round after round, the nodes with a step to one of the last level get the
//! next one. Each round goes back from the nodes of the last level alone.

ghost use Rattle.std.specs.Prelude.{◌≡◌, ◌≢◌, ℕ, ◌+◌, ◌^◌, ◌<◌, length, All, Contains, IfOk, IfSome, IfNone, OnOk};
ghost use Rattle.state_pairs.specs.Goals.{StaysWithin, AreLevels, level_at, IsLeastWord};
ghost use Rattle.state_pairs.specs.Rounds.{AreLevelsUpTo, AreOfLevel, IsNear, IsNearest, IsRound, Marks};
ghost use Rattle.state_pairs.specs.Sources.{sources_at};

use crate::goals::Graph;
use crate::sources::{Sources, find_sources};
use rpq_base::Memory;
use std::alloc::Global;

/// The least label that leads from the node to one of this level, and where it leads.
fn nearest<G: Graph>(graph: &G, levels: &[Option<u32>], node: u32, level: u32) -> Option<(u32, u32)>
    requires node { node < (G.graph graph.now).node_count }
    requires levels { length levels.now ≡ (G.graph graph.now).node_count }
    requires within { StaysWithin (G.graph graph.now) }
    ensures some { IfSome result (λ step.
        IsNearest (G.graph graph.now) levels.now level node step.0 step.1) }
    ensures none { IfNone result (IsNear (G.graph graph.now) levels.now level node → ⊥) }
{
    for label in 0..graph.label_count() {
        if let Some(next) = graph.step(node, label) {
            if levels[next as usize] == Some(level) {
                return Some((label, next));
            }
        }
    }
    None
}

/// Gives the node the level, where it has none, and puts it to those found.
fn mark(
    levels: &mut [Option<u32>],
    found: &mut Vec<u32>,
    node: u32,
    level: u32,
) -> Result<(), Memory>
    requires { node < length levels.old }
    ensures { OnOk result
        (Marks (λ each. each ≡ node) level levels.old levels.new found.old.items found.new.items) }
{
    if levels[node as usize].is_none() {
        found.push(node)?;
        levels[node as usize] = Some(level);
    }
    Ok(())
}

/// Gives each of the nodes the level, where it has none, and puts it to those found.
fn mark_all(
    levels: &mut [Option<u32>],
    found: &mut Vec<u32>,
    nodes: &[u32],
    level: u32,
) -> Result<(), Memory>
    requires { All (λ node. node < length levels.old) nodes.now }
    ensures { OnOk result
        (Marks (Contains nodes.now) level levels.old levels.new found.old.items found.new.items) }
{
    for node in nodes {
        mark(levels, found, *node, level)?;
    }
    Ok(())
}

/// Gives the level to the nodes without one that have a step to one of the last nodes, and answers
/// these nodes.
fn next_round(
    alloc: Global,
    sources: &[Sources],
    last: &[u32],
    levels: &mut [Option<u32>],
    level: u32,
) -> Result<Vec<u32>, Memory>
    requires last { All (λ node. node < length sources.now) last.now }
    requires within { (target source : ℕ) → Contains (sources_at sources.now target) source →
        source < length levels.old }
    ensures { IfOk result (λ found.
        IsRound sources.now last.now level levels.old levels.new found.items) }
{
    let mut found = Vec::new(alloc);
    for node in last {
        mark_all(levels, &mut found, sources[*node as usize].nodes(), level)?;
    }
    Ok(found)
}

/// The goals have level 0, and the others none.
fn goals<G: Graph>(alloc: Global, graph: &G) -> Result<Vec<Option<u32>>, Memory>
    ensures { IfOk result (λ levels. AreLevelsUpTo (G.graph graph.now) 0 levels.items) }
{
    let mut levels = Vec::new(alloc);
    for node in 0..graph.node_count() {
        levels.push(if graph.is_goal(node) { Some(0) } else { None })?;
    }
    Ok(levels)
}

/// The nodes of level 0.
fn nodes_at_goals(alloc: Global, levels: &[Option<u32>]) -> Result<Vec<u32>, Memory>
    requires { length levels.now < 2 ^ 32 }
    ensures { IfOk result (λ nodes. AreOfLevel levels.now 0 nodes.items) }
{
    let mut nodes = Vec::new(alloc);
    for (node, level) in levels.iter().enumerate() {
        if *level == Some(0) {
            nodes.push(node as u32)?;
        }
    }
    Ok(nodes)
}

/// For each node the least length of a word that leads from it to a goal, where there is one.
///
/// It goes once through the nodes and their labels, and once backwards through the steps that it
/// found there, which it keeps meanwhile. The only error is [`Memory`].
pub fn levels<G: Graph>(alloc: Global, graph: &G) -> Result<Vec<Option<u32>>, Memory>
    requires within { StaysWithin (G.graph graph.now) }
    requires few { (G.graph graph.now).node_count + 1 < 2 ^ 32 }
    ensures { IfOk result (λ levels. AreLevels (G.graph graph.now) levels.items) }
{
    let sources = find_sources(alloc, graph)?;
    let mut levels = goals(alloc, graph)?;
    let mut last = nodes_at_goals(alloc, &levels)?;
    let mut depth = 0;
    loop {
        let found = next_round(alloc, &sources, &last, &mut levels, depth + 1)?;
        if found.is_empty() {
            return Ok(levels);
        }
        last = found;
        depth += 1;
    }
}

/// The level of the node, which has one.
fn level_of(levels: &[Option<u32>], node: u32) -> u32
    requires node { node < length levels.now }
    requires some { level_at levels.now node ≢ None }
    ensures { level_at levels.now node ≡ Some result }
{
    levels[node as usize].unwrap_or(0)
}

/// The least word that leads from the node to a goal, as the numbers of its labels: the shortest,
/// and of these the least label by label.
///
/// It goes once through the labels for each label of the word. The only error is [`Memory`].
pub fn least_word<G: Graph>(
    alloc: Global,
    graph: &G,
    levels: &[Option<u32>],
    from: u32,
) -> Result<Vec<u32>, Memory>
    requires within { StaysWithin (G.graph graph.now) }
    requires from { from < (G.graph graph.now).node_count }
    requires levels { AreLevels (G.graph graph.now) levels.now }
    requires some { level_at levels.now from ≢ None }
    ensures { IfOk result (λ word. IsLeastWord (G.graph graph.now) from word.items) }
{
    let mut word = Vec::new(alloc);
    let mut node = from;
    let mut level = level_of(levels, from);
    while level > 0 {
        // from a level above 0 some label leads to the level below
        let Some((label, next)) = nearest(graph, levels, node, level - 1) else {
            return Ok(word);
        };
        word.push(label)?;
        node = next;
        level -= 1;
    }
    Ok(word)
}
