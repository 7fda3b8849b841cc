// Orders on keys.
ghost use Rattle.std.specs.Prelude.{◌≡◌, nat_lt};
ghost use Rattle.tree.specs.Orders.{KeyOrdering, TotalOrder};
ghost use Rattle.tree.specs.OrderLaws.{unsigned_total};

// An order is a type, and has no values.
pub trait KeyOrder {
    ghost ordering: { KeyOrdering };

    // Whether key a is below key b.
    fn less(a: u32, b: u32) -> bool
        ensures { result ≡ ordering.less a b };

    // The key below all others.
    fn least_key() -> u32
        ensures { result ≡ ordering.least };

    ghost ordered: { TotalOrder ordering };
}

const LOWEST: u32 = 0;

// Keys as unsigned numbers.
pub struct Unsigned;

impl KeyOrder for Unsigned {
    ghost ordering = { record { less = nat_lt; least = 0 } };

    ghost ordered = { unsigned_total };

    fn less(a: u32, b: u32) -> bool {
        a < b
    }

    fn least_key() -> u32 {
        LOWEST
    }
}
