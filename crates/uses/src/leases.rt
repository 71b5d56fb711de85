//! A lease table: names that are held until a time. It stands over either kind of collection of keys that expire.

ghost use Rattle.std.specs.Prelude.{◌≡◌, Option, Some, None};
ghost use Rattle.std.specs.Ordering.{nat_cmp};
ghost use Rattle.std.specs.declared.cmp.Ordering.{Ordering};
ghost use Rattle.std.specs.declared.cmp.Ordering.TheVariants.{Greater};

use i_tree::key::exp::KeyExpCollection;
use i_tree::{ExpiredKey, Refusal};
use std::cmp::Ordering;

/// A name, and the last moment at which it is held. Leases stand by name, and those of one name by that moment.
#[derive(Clone, Copy, Debug, PartialEq, Eq, PartialOrd, Ord)]
pub struct Lease {
    pub name: u32,
    pub until: u64,
}

impl ExpiredKey<u64> for Lease {
    ghost expiration = { λ lease. lease.until };

    fn expiration(&self) -> u64 {
        self.until
    }
}

/// Until when the name is held, if it is held now. Of a lease that was renewed there are several: this is the last of them.
pub fn held_until<C: KeyExpCollection<Lease, u64, Option<Lease>>>(
    leases: &mut C,
    name: u32,
    now: u64,
) -> Option<u64> {
    let stands = |lease: Lease| -> Ordering
        ensures { result ≡ nat_cmp lease.name name }
    { lease.name.cmp(&name) };
    match leases.first_less_or_equal_by(now, None, stands) {
        Some(lease) if lease.name == name => Some(lease.until),
        _ => None,
    }
}

/// Takes the name until a time. False where it is held now.
pub fn take<C: KeyExpCollection<Lease, u64, Option<Lease>>>(
    leases: &mut C,
    name: u32,
    until: u64,
    now: u64,
) -> Result<bool, Refusal> {
    if held_until(leases, name, now).is_some() {
        return Ok(false);
    }
    hold(leases, Lease { name, until }, now)?;
    Ok(true)
}

/// Holds the name until a later time. False where it is not held now.
pub fn renew<C: KeyExpCollection<Lease, u64, Option<Lease>>>(
    leases: &mut C,
    name: u32,
    until: u64,
    now: u64,
) -> Result<bool, Refusal> {
    if held_until(leases, name, now).is_none() {
        return Ok(false);
    }
    hold(leases, Lease { name, until }, now)?;
    Ok(true)
}

// Stores the lease, unless the same one is there and live.
fn hold<C: KeyExpCollection<Lease, u64, Option<Lease>>>(
    leases: &mut C,
    lease: Lease,
    now: u64,
) -> Result<(), Refusal> {
    leases.insert_new(lease, Some(lease), now)?;
    Ok(())
}

/// How many names are held now, counted up to `most`: from one name to the next above it.
pub fn count_held<C: KeyExpCollection<Lease, u64, Option<Lease>>>(
    leases: &mut C,
    most: usize,
    now: u64,
) -> usize {
    let mut last = None;
    for count in 0..most {
        match next_lease(leases, last, now) {
            Some(lease) => last = Some(lease.name),
            None => return count,
        }
    }
    most
}

// A lease of the first name above the last one that is held now, or of the first of all.
fn next_lease<C: KeyExpCollection<Lease, u64, Option<Lease>>>(
    leases: &mut C,
    last: Option<u32>,
    now: u64,
) -> Option<Lease> {
    match last {
        Some(name) => leases.first_greater_by(now, None, |lease| lease.name.cmp(&name)),
        None => leases.first_greater_by(now, None, |_| Ordering::Greater),
    }
}
