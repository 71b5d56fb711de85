//! Who is signed in: a struct that owns a collection of keys that expire, and promises of its own over it. Its proofs are a few
//! lines each, by the lemmas that the library has for callers of keys (`proofs/KeyLemmas/Callers.antt`).

ghost use Rattle.std.specs.Prelude.{◌≡◌, ◌≤◌, ℕ, true, Contains, IfOk, Option};
ghost use Rattle.std.specs.Ordering.{nat_cmp};
ghost use Rattle.std.specs.declared.cmp.Ordering.{Ordering};
ghost use Rattle.i_tree.specs.Expiring.Tree.{items};

use i_tree::key::exp::KeyExpCollection;
use i_tree::key::tree::KeyExpTree;
use i_tree::{ExpiredKey, Refusal};
use std::alloc::Allocator;
use std::cmp::Ordering;

/// A session's number, and the last second at which it stands. Sessions are compared by their numbers alone.
#[derive(Clone, Copy, Debug)]
#[derive_where(PartialEq, Eq, PartialOrd, Ord)]
pub struct Session {
    pub number: u64,
    #[derive_where(skip(EqHashOrd))]
    pub until: u64,
}

impl ExpiredKey<u64> for Session {
    ghost expiration = { λ session. session.until };

    fn expiration(&self) -> u64 {
        self.until
    }
}

/// Who signed in, by which number.
#[derive(Clone, Copy, Debug, PartialEq, Eq)]
pub struct Guest {
    pub number: u64,
    pub name: u32,
}

/// The sessions of those who are signed in.
#[derive(Drop)]
pub struct Sessions<A: Allocator + Copy> {
    kept: KeyExpTree<Session, u64, Option<Guest>, A>,
}

impl<A: Allocator + Copy> Sessions<A> {
    /// Nobody is signed in.
    pub fn new(alloc: A) -> Result<Self, Refusal> {
        Ok(Sessions {
            kept: KeyExpTree::new(alloc, 0)?,
        })
    }

    /// Keeps the session, and says true, unless one of its number stands now.
    pub fn sign_in(&mut self, session: Session, name: u32, now: u64) -> Result<bool, Refusal>
        ensures { IfOk result (λ is_new. is_new ≡ true → Contains (items self.new.kept.shape)
            (session, Some (record { number = session.number; name = name }))) }
    {
        let guest = Guest {
            number: session.number,
            name,
        };
        self.kept.insert_new(session, Some(guest), now)
    }

    /// Who is signed in by the number now, if anybody is. Whoever signed in is found as long as the session stands.
    pub fn name_of(&mut self, number: u64, now: u64) -> Option<u32>
        ensures { (until name : ℕ) → Contains (items self.old.kept.shape)
            (record { number = number; until = until }, Some (record { number = number; name = name }))
            → now ≤ until → result ≡ Some name }
    {
        match self.guest_of(number, now) {
            Some(guest) if guest.number == number => Some(guest.name),
            _ => None,
        }
    }

    // The guest of the session of the number, where it stands now, or some other one, or none.
    fn guest_of(&mut self, number: u64, now: u64) -> Option<Guest>
        ensures { (until : ℕ) (guest : Option Guest) → Contains (items self.old.kept.shape)
            (record { number = number; until = until }, guest) → now ≤ until → result ≡ guest }
    {
        let stands = |session: Session| -> Ordering
            ensures { result ≡ nat_cmp session.number number }
        { session.number.cmp(&number) };
        self.kept.first_less_or_equal_by(now, None, stands)
    }
}

/// Whether the session begins now, which it does unless one of its number stands, and who is found by its number later. Who
/// began a session is never missed while it stands.
pub fn found_later<A: Allocator + Copy>(
    sessions: &mut Sessions<A>,
    session: Session,
    name: u32,
    now: u64,
    later: u64,
) -> Result<(bool, Option<u32>), Refusal>
    ensures { IfOk result (λ told. told.0 ≡ true → later ≤ session.until → told.1 ≡ Some name) }
{
    let is_new = sessions.sign_in(session, name, now)?;
    Ok((is_new, sessions.name_of(session.number, later)))
}
