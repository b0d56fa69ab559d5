ghost use Rattle.std.specs.Prelude.{◌≡◌, ℕ, ◌%◌, ◌≤◌, length, MatchOption, IsTrue, ◌↔◌};
ghost use Rattle.sha2.specs.Sha256.{sha256};
ghost use Rattle.zms_dev.specs.Bytes.{byte};
ghost use Rattle.uber_ring.specs.Numbers.{bytes_at};
ghost use Rattle.uber_ring.specs.Slots.{IsUber, HasFields, IsBody, IsValidSlot, HasZeros};
ghost use Rattle.uber_ring.specs.declared.slot.Uber.{Uber};

use crate::fields::{digest_at, digest_of, put_bytes, put_u64, u64_at};
use zms_units::Group;

/// How many ring slots there are.
pub(crate) const SLOTS: u64 = 128;

/// OpenZFS's `UBERBLOCK_MAGIC`, "oo-ba-bloc".
const MAGIC: u64 = 0x00ba_b10c;

/// The version of a slot.
pub(crate) const VERSION: u64 = 1;

/// The first group that a slot may name, and one more than the last.
const FIRST_GROUP: u64 = 4;

const GROUPS_END: u64 = 1 << 50;

/// The most bytes that a table may have.
pub(crate) const MAX_TABLE_LEN: u64 = 262_144;

/// The value of an open gate byte.
pub(crate) const OPEN: u8 = 0xB1;

/// What a ring slot says, after OpenZFS's `uberblock_t`: the group, the version of the slot, and the length in bytes
/// and the SHA-256 digest of the group's table.
#[derive(Clone, Copy, Debug, PartialEq, Eq)]
pub struct Uber {
    pub group: Group,
    pub version: u64,
    pub table_len: u64,
    pub table_digest: [u8; 32],
}

/// Writes what a slot says into its first 64 bytes.
fn write_fields(bytes: &mut [u8], uber: &Uber)
    requires { length bytes.old ≡ 1023 }
    ensures is { HasFields bytes.new uber.now }
    ensures len { length bytes.new ≡ 1023 }
    ensures behind { (p : ℕ) → 64 ≤ p → byte bytes.new p ≡ byte bytes.old p }
{
    put_u64(bytes, 0, MAGIC);
    put_u64(bytes, 8, uber.version);
    put_u64(bytes, 16, uber.group.0);
    put_u64(bytes, 24, uber.table_len);
    put_bytes(bytes, 32, &uber.table_digest);
}

/// Writes all that a slot says but its gate.
fn write_body(bytes: &mut [u8], uber: &Uber)
    requires { length bytes.old ≡ 1023 }
    ensures body { IsBody bytes.new uber.now }
    ensures behind { (p : ℕ) → 96 ≤ p → byte bytes.new p ≡ byte bytes.old p }
{
    write_fields(bytes, uber);
    let digest = digest_of(bytes, 0, 64);
    put_bytes(bytes, 64, &digest);
}

/// The bytes of a slot up to its gate.
pub(crate) fn slot_body(uber: &Uber) -> [u8; 1023]
    ensures body { IsBody result uber.now }
    ensures zeros { HasZeros result }
{
    let mut bytes = [0u8; 1023];
    write_body(&mut bytes, uber);
    bytes
}

/// What a slot says, if it has the magic.
fn fields_of(bytes: &[u8]) -> Option<Uber>
    requires { length bytes.now ≡ 1024 }
    ensures { MatchOption result ((uber : Uber) → HasFields bytes.now uber → ⊥) (λ uber. HasFields bytes.now uber) }
{
    if u64_at(bytes, 0) != MAGIC {
        return None;
    }
    Some(Uber {
        group: Group(u64_at(bytes, 16)),
        version: u64_at(bytes, 8),
        table_len: u64_at(bytes, 24),
        table_digest: digest_at(bytes, 32),
    })
}

/// Whether a valid slot may say so.
fn is_allowed(uber: &Uber) -> bool
    ensures { IsTrue result ↔ IsUber uber.now }
{
    uber.version == VERSION
        && uber.group.0 >= FIRST_GROUP
        && uber.group.0 < GROUPS_END
        && uber.table_len <= MAX_TABLE_LEN
}

/// Whether the digest of a slot is that of its first 64 bytes.
fn has_digest(bytes: &[u8]) -> bool
    requires { length bytes.now ≡ 1024 }
    ensures { IsTrue result ↔ (bytes_at bytes.now 64 32 ≡ sha256 (bytes_at bytes.now 0 64)) }
{
    digest_at(bytes, 64) == digest_of(bytes, 0, 64)
}

/// The uberblock of a valid slot.
fn uber_of(bytes: &[u8]) -> Option<Uber>
    requires { length bytes.now ≡ 1024 }
    ensures { MatchOption result ((uber : Uber) → IsValidSlot bytes.now uber → ⊥) (λ uber. IsValidSlot bytes.now uber) }
{
    if bytes[1023] != OPEN {
        return None;
    }
    let Some(uber) = fields_of(bytes) else {
        return None;
    };
    if !is_allowed(&uber) || !has_digest(bytes) {
        return None;
    }
    Some(uber)
}

/// The uberblock of a slot, if it is valid and of a group that the slot is for.
pub(crate) fn uber_in_slot(bytes: &[u8], slot: u64) -> Option<Uber>
    requires { length bytes.now ≡ 1024 }
    ensures { MatchOption result ((uber : Uber) → uber.group.0 % 128 ≡ slot → IsValidSlot bytes.now uber → ⊥) (λ uber. (uber.group.0 % 128 ≡ slot) × IsValidSlot bytes.now uber) }
{
    let Some(uber) = uber_of(bytes) else {
        return None;
    };
    if uber.group.0 % SLOTS != slot {
        return None;
    }
    Some(uber)
}
