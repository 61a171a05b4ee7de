// Kinds of amount: what each value means, and exact arithmetic on what is meant.
#![tactic(auto)]

ghost use Rattle.std.specs.Prelude.{◌≡◌, ℕ, ◌*◌, ◌^◌, ◌≤◌, ◌<◌, true, ℤ, neg_ℤ, int_lt};
ghost use Rattle.amount.specs.Range.{inside, if_inside, sum, meant};

use bounds::lies_within;

mod bounds;
pub mod grams;
pub mod trays;

// Every kind has a limit L, 1 or more; a value stands for some whole number between -2L and 2L.
pub trait Amount: Copy {
    ghost means: { Self → ℤ };

    ghost limit: { ℕ };

    // Adds without loss; there is no sum just where it would pass -2L or 2L.
    fn checked_add(self, other: Self) -> Option<Self>
        ensures { meant means result ≡ sum limit (means self) (means other) };

    // Reverses the sign.
    fn opposite(self) -> Self
        ensures { means result ≡ neg_ℤ (means self) };

    // A method: `PartialOrd` would need a law of its own that ties it to what is meant.
    fn less_than(self, other: Self) -> bool
        ensures { result ≡ int_lt (means self) (means other) };

    fn is_zero(self) -> bool
        ensures { result ≡ inside 0 (means self) };

    // Whether it lies from -L to L, as an amount from outside must.
    fn within_limit(self) -> bool
        ensures { result ≡ inside limit (means self) };

    ghost limited: { 1 ≤ limit };

    ghost bounded: { (x : Self) → inside (2 * limit) (means x) ≡ true };
}

// An amount that a whole number of 64 bits stands for.
// By methods: `Into` and `TryFrom` would need a law each that ties them to what is meant.
pub trait Counted: Copy {
    ghost means: { Self → ℤ };

    ghost LIMIT: { ℕ };

    const LIMIT: u64;

    // The number meant.
    fn number(self) -> i64
        ensures { result ≡ means self };

    // The amount that means n; there is none just where n lies outside -2L to 2L.
    fn of_number(n: i64) -> Option<Self>
        ensures { meant means result ≡ if_inside (2 * LIMIT) n };

    ghost limited: { 1 ≤ LIMIT };

    ghost small: { LIMIT < 2 ^ 60 };

    ghost bounded: { (x : Self) → inside (2 * LIMIT) (means x) ≡ true };
}

impl<N: Counted> Amount for N {
    ghost means = { N.means };

    ghost limit = { N.LIMIT };

    ghost limited = { N.limited };

    ghost bounded = { N.bounded };

    fn checked_add(self, other: N) -> Option<N> {
        let total = self.number() + other.number();
        N::of_number(total)
    }

    fn opposite(self) -> N {
        N::of_number(-self.number()).unwrap()
    }

    fn less_than(self, other: N) -> bool {
        self.number() < other.number()
    }

    fn is_zero(self) -> bool {
        self.number() == 0
    }

    fn within_limit(self) -> bool {
        lies_within(self.number(), N::LIMIT)
    }
}
