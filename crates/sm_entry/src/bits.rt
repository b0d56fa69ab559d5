ghost use Rattle.std.specs.Prelude.{◌≡◌, ◌+◌, ◌*◌, ◌/◌, ◌%◌, ◌^◌, ◌<◌, ◌≤◌};

/// The value of the `len` bits of a word from bit `low` up. After `BF64_DECODE`.
pub(crate) fn decode(word: u64, low: u32, len: u32) -> u64
    requires low { low < 64 }
    requires len { len < 64 }
    ensures { result ≡ word / 2 ^ low % 2 ^ len }
{
    (word >> low) & ((1 << len) - 1)
}

/// A value of `len` bits at the place of the bits of a word from bit `low` up. After `BF64_ENCODE`.
pub(crate) fn encode(value: u64, low: u32, len: u32) -> u64
    requires low { low < 64 }
    requires within { low + len ≤ 64 }
    requires fits { value < 2 ^ len }
    ensures { result ≡ value * 2 ^ low }
{
    value << low
}
