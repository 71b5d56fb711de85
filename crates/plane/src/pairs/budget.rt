//! `Budget`: after how many tests a search for pairs gives up.

ghost use Rattle.std.specs.Prelude.{◌≡◌, ◌-◌, ◌^◌, false};

// A sweep over boxes gives up once it tests more than so many for each item, and so many more for each pair that is found. Items
// that lie apart take a few tests each, and those that cross about as many as there are pairs. So many tests take about as long
// as the sweep by columns takes for an edge, and for a pair.
const TESTS_PER_ITEM: usize = 16;

const TESTS_PER_PAIR: usize = 16;

/// So many looks at items that lie apart take as long as a test of two that lie near each other.
pub(super) const LOOKS_PER_TEST: usize = 8;

// So large a share of all tests, as its divisor, may be made ahead of an even pace.
const AHEAD: usize = 8;

/// How many tests a search for pairs may take: so many in all, and so many more for each pair that is found.
///
/// Where `tests` is `usize::MAX`, it never gives up.
#[derive(Clone, Copy, Debug)]
pub struct Budget {
    /// So many tests in all.
    pub tests: usize,
    /// So many more for each pair that is found.
    pub per_pair: usize,
}

impl Budget {
    /// A budget that is never spent.
    pub fn unlimited() -> Budget
        ensures { result.tests ≡ 2 ^ 64 - 1 }
    {
        Budget {
            tests: usize::MAX,
            per_pair: 0,
        }
    }

    /// As many tests as the pairs of so many items mostly need.
    pub fn for_items(count: usize) -> Budget {
        Budget {
            tests: count.saturating_mul(TESTS_PER_ITEM),
            per_pair: TESTS_PER_PAIR,
        }
    }

    /// Whether so many tests are more than it allows where so many pairs are found.
    pub fn is_spent(self, tests: usize, pairs: usize) -> bool
        ensures { self.tests ≡ 2 ^ 64 - 1 → result ≡ false }
    {
        self.tests < tests && self.allowed(pairs) < tests
    }

    // How many tests it allows where so many pairs are found.
    fn allowed(self, pairs: usize) -> usize {
        self.tests
            .saturating_add(self.per_pair.saturating_mul(pairs))
    }

    /// The same at an even pace, where the work has so many parts.
    pub(super) fn at_pace(self, parts: usize) -> Pace
        ensures { self.tests ≡ 2 ^ 64 - 1 → result.ahead ≡ 2 ^ 64 - 1 }
    {
        let looks = self.tests.saturating_mul(LOOKS_PER_TEST);
        Pace {
            ahead: self.tests.saturating_mul(LOOKS_PER_TEST / AHEAD),
            per_part: looks / parts.max(1),
            per_pair: self.per_pair.saturating_mul(LOOKS_PER_TEST),
        }
    }
}

/// How many looks a search for pairs may have made while its parts are done one after another. Where the tests of the first parts
/// say that those of all will be too many, it need not come to their end.
#[derive(Clone, Copy)]
pub(super) struct Pace {
    /// So many at first.
    pub ahead: usize,
    /// So many more for each part that is done.
    pub per_part: usize,
    /// So many more for each pair that is found.
    pub per_pair: usize,
}

impl Pace {
    /// Whether so many looks are more than it allows where so many parts are done and so many pairs are found.
    pub fn is_passed(self, looks: usize, parts: usize, pairs: usize) -> bool
        ensures { self.ahead ≡ 2 ^ 64 - 1 → result ≡ false }
    {
        self.ahead < looks && self.allowed(parts, pairs) < looks
    }

    // How many looks it allows where so many parts are done and so many pairs are found.
    fn allowed(self, parts: usize, pairs: usize) -> usize {
        self.ahead
            .saturating_add(self.per_part.saturating_mul(parts))
            .saturating_add(self.per_pair.saturating_mul(pairs))
    }
}
