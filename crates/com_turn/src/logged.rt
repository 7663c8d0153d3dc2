//! What a turn may be taken for.
ghost use Rattle.std.specs.Prelude.{ℕ, List};

/// A value with a log, which grows from turn to turn, and a base, which stays the same as long as the turn is open. Each item
/// of the log has an owner, which is the number of a party. Contracts see all three; no code computes them.
pub trait Logged {
    type Item;

    type Base;

    ghost log: { Self → List Self.Item };

    ghost base: { Self → Self.Base };

    ghost owner: { Self.Item → ℕ };
}
