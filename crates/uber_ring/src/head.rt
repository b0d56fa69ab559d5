ghost use Rattle.std.specs.Prelude.{◌≡◌, ◌+◌, ◌<◌, ◌≤◌, ◌↔◌, length, IsTrue, IfOk, IfErr, MatchOption, codes};
ghost use Rattle.vdev_map.specs.Limits.{IsFlush, IsLog, IsHead};
ghost use Rattle.vdev_map.specs.declared.layout.Form.{Form};
ghost use Rattle.vdev_map.specs.declared.layout.Part.TheVariants.{Head as HeadPart};
ghost use Rattle.uber_ring.specs.Numbers.{bytes_at, number_at};
ghost use Rattle.uber_ring.specs.TableBytes.{AreZeros};
ghost use Rattle.uber_ring.specs.Heads.{version_of, HasHeadDigest, IsHeadOf, ShowsHeadFault, IsHeadWrongAt};

use crate::fields::{digest_at, digest_of, has_zeros, put_bytes, put_u32, u32_at};
use vdev_map::{Form, Head, Part};

/// The text at the front of a head.
const HEAD_TEXT: &[u8] = b"ZMSPOOL1";

/// Why bytes are not the head of a pool.
#[derive(Clone, Copy, Debug, PartialEq, Eq)]
pub enum HeadFault {
    /// The digest that stands in the head differs from that of its fields.
    HeadDamaged { kept: [u8; 32], found: [u8; 32] },
    /// The digest is right, and the field that begins at this byte of the head is the first that is not.
    Malformed { part: Part, at: u64 },
}

fn malformed_head(at: u64) -> HeadFault
    ensures { result ≡ HeadFault.Malformed HeadPart at }
{
    HeadFault::Malformed {
        part: Part::Head,
        at,
    }
}

/// The version that a form has in the head.
fn version_for(form: Form) -> u32
    ensures { result ≡ version_of form }
{
    match form {
        Form::Whole => 0,
        Form::Logged => 1,
    }
}

/// The form that a version says.
fn form_for(version: u32) -> Option<Form>
    ensures { MatchOption result (1 < version) (λ form. version ≡ version_of form) }
{
    match version {
        0 => Some(Form::Whole),
        1 => Some(Form::Logged),
        _ => None,
    }
}

fn has_head_text(bytes: &[u8]) -> bool
    requires { length bytes.now ≡ 64 }
    ensures { IsTrue result ↔ (bytes_at bytes.now 0 8 ≡ codes "ZMSPOOL1") }
{
    is_head_text(&bytes[..8])
}

fn is_head_text(piece: &[u8]) -> bool
    ensures { IsTrue result ↔ (piece.now ≡ codes "ZMSPOOL1") }
{
    piece == HEAD_TEXT
}

/// Writes the fields of a head over zeros.
fn put_fields(bytes: &mut [u8], head: &Head)
    requires len { length bytes.old ≡ 64 }
    requires zeros { AreZeros bytes.old 0 64 }
    ensures len { length bytes.new ≡ 64 }
    ensures text { bytes_at bytes.new 0 8 ≡ codes "ZMSPOOL1" }
    ensures version { number_at bytes.new 8 4 ≡ version_of head.now.form }
    ensures flush { number_at bytes.new 12 4 ≡ head.now.flush }
    ensures log { number_at bytes.new 16 4 ≡ head.now.log }
    ensures zeros { AreZeros bytes.new 20 12 }
{
    put_bytes(bytes, 0, HEAD_TEXT);
    put_u32(bytes, 8, version_for(head.form));
    put_u32(bytes, 12, head.flush);
    put_u32(bytes, 16, head.log);
}

/// Writes a head over zeros.
fn put_head(bytes: &mut [u8], head: &Head)
    requires len { length bytes.old ≡ 64 }
    requires zeros { AreZeros bytes.old 0 64 }
    requires limits { IsHead head.now }
    ensures { IsHeadOf bytes.new head.now }
{
    put_fields(bytes, head);
    let digest = digest_of(bytes, 0, 32);
    put_bytes(bytes, 32, &digest);
}

/// The first 64 bytes of a pool device with this head.
pub fn head_bytes(head: &Head) -> [u8; 64]
    requires { IsHead head.now }
    ensures { IsHeadOf result head.now }
{
    let mut bytes = [0u8; 64];
    put_head(&mut bytes, head);
    bytes
}

/// The head that the first 64 bytes of a pool device are.
pub fn head_of(bytes: &[u8]) -> Result<Head, HeadFault>
    requires { length bytes.now ≡ 64 }
    ensures ok { IfOk result (λ head. IsHeadOf bytes.now head) }
    ensures err { IfErr result (λ fault. ShowsHeadFault bytes.now fault) }
{
    let kept = digest_at(bytes, 32);
    let found = digest_of(bytes, 0, 32);
    if found != kept {
        return Err(HeadFault::HeadDamaged { kept, found });
    }
    fields_of_head(bytes)
}

/// The fields of a head whose digest is right.
fn fields_of_head(bytes: &[u8]) -> Result<Head, HeadFault>
    requires len { length bytes.now ≡ 64 }
    requires digest { HasHeadDigest bytes.now }
    ensures ok { IfOk result (λ head. IsHeadOf bytes.now head) }
    ensures err { IfErr result (λ fault. ShowsHeadFault bytes.now fault) }
{
    if !has_head_text(bytes) {
        return Err(malformed_head(0));
    }
    let Some(form) = form_for(u32_at(bytes, 8)) else {
        return Err(malformed_head(8));
    };
    let flush = u32_at(bytes, 12);
    if flush < 2 || flush > 32 {
        return Err(malformed_head(12));
    }
    let log = u32_at(bytes, 16);
    if log < 64 || log > 65_536 {
        return Err(malformed_head(16));
    }
    if !has_zeros(bytes, 20, 12) {
        return Err(malformed_head(20));
    }
    Ok(Head { form, flush, log })
}
