//! Numbers cut to the fields of a store.
ghost use Rattle.std.specs.Prelude.{◌≡◌, ℕ, ◌%◌, ◌^◌, Ok};

/// What a field of so many bits holds of a number: its low bits. No other width meets both clauses: a number of the
/// field's type is kept whole, and the low bits of any number are one of that type.
pub trait Low: TryFrom<u64> {
    ghost bits: { ℕ };

    fn low(x: u64) -> Self
        ensures low { Self.try_from_gives (x % 2 ^ bits) (Ok result) }
        ensures whole { (y : Self) → Self.try_from_gives x (Ok y) → result ≡ y };
}

impl Low for u16 {
    ghost bits = { 16 };

    fn low(x: u64) -> u16 {
        (x % 65536) as u16
    }
}

impl Low for u32 {
    ghost bits = { 32 };

    fn low(x: u64) -> u32 {
        (x % 4294967296) as u32
    }
}

impl Low for u64 {
    ghost bits = { 64 };

    fn low(x: u64) -> u64 {
        x
    }
}
