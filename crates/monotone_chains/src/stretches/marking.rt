//! Which parts others come to.

ghost use Rattle.std.specs.Prelude.{◌≡◌, ◌<◌, ℕ, true, false, All, IfErr, IfOk, get_or, length};
ghost use Rattle.std.specs.List.{AllZip};
ghost use Rattle.i_tree.specs.declared.Refusal.TheVariants.{OutOfMemory};
ghost use Rattle.monotone_chains.specs.Stretches.Cut.{AreSettled, IsSettled, Marks};
ghost use Rattle.monotone_chains.specs.Stretches.Spans.{IsSpan};

use super::lines::are_apart;
use super::parts::Part;
use super::spans::Span;
use i_tree::Refusal;
use plane::pairs::pairs_upto;
use std::alloc::{AllocError, Allocator};

/// Marks of the parts that lie there: of two parts both are marked, or they are clear of each other. Where more pairs of parts
/// come near each other than so many, all are marked.
pub fn busy_of<A: Allocator + Copy>(
    alloc: A,
    parts: &[Part],
    spans: &[Span],
    limit: usize,
) -> Result<Vec<bool, A>, Refusal>
    requires { AllZip IsSpan parts.now spans.now }
    ensures size { IfOk result (λ busy. length busy.items ≡ length parts.entry.now) }
    ensures settled { IfOk result (λ busy. AreSettled parts.entry.now busy.items) }
    ensures refused { IfErr result (λ cause. cause ≡ OutOfMemory) }
{
    let mut pairs = Vec::new(alloc);
    let are_all = pairs_upto(spans, limit, &mut pairs)?;
    if !are_all {
        return Ok(all_busy(alloc, parts.len())?);
    }
    let mut busy = vec![in alloc; false; parts.len()]?;
    mark(parts, &pairs, &mut busy);
    Ok(busy)
}

// So many marks.
fn all_busy<A: Allocator + Copy>(alloc: A, count: usize) -> Result<Vec<bool, A>, AllocError>
    ensures { IfOk result (λ busy. (length busy.items ≡ count) × ((k : ℕ) → k < count → get_or busy.items k false ≡ true)) }
{
    vec![in alloc; true; count]
}

// Marks both places of each pair of parts that no line keeps apart.
fn mark(parts: &[Part], pairs: &[(usize, usize)], busy: &mut [bool])
    requires within { All (λ pair. (pair.0 < length parts.now) × (pair.1 < length parts.now)) pairs.now }
    requires size { length busy.old ≡ length parts.now }
    ensures { All (IsSettled parts.entry.now busy.new) pairs.now }
{
    // Of each pair so far both parts are marked, or a line keeps them apart: marks stay.
    for pair in pairs {
        settle(parts, pair.0, pair.1, busy);
    }
}

// Marks both parts where no line keeps them apart.
fn settle(parts: &[Part], first: usize, second: usize, busy: &mut [bool])
    requires first { first < length parts.now }
    requires second { second < length parts.now }
    requires size { length busy.old ≡ length parts.now }
    ensures settled { IsSettled parts.entry.now busy.new (first, second) }
    ensures keeps { (k : ℕ) → get_or busy.old k false ≡ true → get_or busy.new k false ≡ true }
{
    if are_apart(parts[first], parts[second]) {
        return;
    }
    mark_at(first, busy);
    mark_at(second, busy);
}

// Marks the place.
fn mark_at(place: usize, busy: &mut [bool])
    requires { place < length busy.old }
    ensures { Marks place busy.old busy.new }
{
    busy[place] = true;
}
