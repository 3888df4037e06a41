//! The shares of a front, dealt to workers by what their queries took of the front before.

ghost use Rattle.std.specs.Prelude.{◌≡◌, ◌<◌, ◌∷◌, ◌++◌, [], length, IfOk, OnOk};
ghost use Rattle.std.specs.List.Sorted.{IsNonDecreasingBy, IsPermutation};
ghost use Rattle.path_engine.specs.Parts.{shares_in};

use crate::front::Share;
use rpq_base::{Memory, Workers};
use std::alloc::Global;
use std::cmp::Reverse;

/// What one worker takes of a front.
#[derive(Drop)]
pub struct Part {
    /// The number of the worker, from 1.
    pub number: u32,
    /// The weights of its shares together. No clause speaks of it, since it decides time alone.
    pub cost: u64,
    pub shares: Vec<Share>,
}

/// Deals the shares to at most as many parts as there are workers: the dearest share first, and
/// each to the part that weighs least so far.
///
/// This is the rule of the longest processing time (Graham 1969): where the costs are right, the
/// heaviest part weighs at most 4/3 of what it must. As long as there are fewer parts than workers
/// a share has a part of its own, so no part is empty.
pub(crate) fn deal(
    alloc: Global,
    mut shares: Vec<Share>,
    workers: Workers,
) -> Result<Vec<Part>, Memory>
    ensures { IfOk result (λ parts. IsPermutation shares.items (shares_in parts.items)) }
{
    shares.sort_unstable_by_key(|share| Reverse(share.cost));
    let mut parts = Vec::new(alloc);
    for share in shares {
        put_share(alloc, &mut parts, workers, share)?;
    }
    Ok(parts)
}

/// Puts a share into a part of its own where there are fewer parts than workers, and else into the
/// part that weighs least.
fn put_share(
    alloc: Global,
    parts: &mut Vec<Part>,
    workers: Workers,
    share: Share,
) -> Result<(), Memory>
    ensures { OnOk result (IsPermutation (share ∷ shares_in parts.old.items)
        (shares_in parts.new.items)) }
{
    let count = parts.len();
    let most = workers.number() as usize;
    if count < most {
        let part = part_of(alloc, count as u32 + 1, share)?;
        Ok(parts.push(part)?)
    } else {
        let lightest = lightest_of(parts);
        add_share(&mut parts[lightest], share)
    }
}

/// The part of the worker with this number, which has this share alone.
fn part_of(alloc: Global, number: u32, share: Share) -> Result<Part, Memory>
    ensures { IfOk result (λ part. part.shares.items ≡ share ∷ []) }
{
    let cost = weight_of(&share);
    let mut shares = Vec::new(alloc);
    shares.push(share)?;
    Ok(Part {
        number,
        cost,
        shares,
    })
}

/// Puts one share more into a part.
fn add_share(part: &mut Part, share: Share) -> Result<(), Memory>
    ensures { OnOk result (part.new.shares.items ≡ part.old.shares.items ++ share ∷ []) }
{
    part.cost = part.cost.saturating_add(weight_of(&share));
    Ok(part.shares.push(share)?)
}

/// What a share weighs. One of which nothing is known weighs a little too, so that such shares are
/// dealt evenly.
fn weight_of(share: &Share) -> u64 {
    share.cost.saturating_add(1)
}

/// The place of the part that weighs least.
fn lightest_of(parts: &[Part]) -> usize
    requires { 0 < length parts.now }
    ensures { result < length parts.now }
{
    let mut lightest = 0;
    for place in 1..parts.len() {
        lightest = lighter(parts, lightest, place);
    }
    lightest
}

/// Which of two places has the part that weighs less, the first where they weigh the same.
fn lighter(parts: &[Part], first: usize, second: usize) -> usize
    requires first { first < length parts.now }
    requires second { second < length parts.now }
    ensures { result < length parts.now }
{
    if parts[second].cost < parts[first].cost {
        second
    } else {
        first
    }
}

/// The shares of all parts, in the order of their places.
pub(crate) fn in_order(alloc: Global, parts: Vec<Part>) -> Result<Vec<Share>, Memory>
    ensures same { IfOk result (λ shares. IsPermutation (shares_in parts.items) shares.items) }
    ensures sorted { IfOk result (λ shares.
        IsNonDecreasingBy (λ share. share.place) shares.items) }
{
    let mut shares = all_shares(alloc, parts)?;
    shares.sort_unstable_by_key(|share| share.place);
    Ok(shares)
}

/// The shares of all parts, those of the first part first.
fn all_shares(alloc: Global, parts: Vec<Part>) -> Result<Vec<Share>, Memory>
    ensures { IfOk result (λ shares. shares.items ≡ shares_in parts.items) }
{
    let mut shares = Vec::new(alloc);
    for part in parts {
        let Part {
            number: _number,
            cost: _cost,
            shares: own,
        } = part;
        put_all(&mut shares, own)?;
    }
    Ok(shares)
}

/// Puts more shares at the end of the shares.
fn put_all(shares: &mut Vec<Share>, mut more: Vec<Share>) -> Result<(), Memory>
    ensures { OnOk result (shares.new.items ≡ shares.old.items ++ more.items) }
{
    Ok(shares.append(&mut more)?)
}
