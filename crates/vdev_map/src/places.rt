ghost use Rattle.std.specs.Prelude.{◌≡◌, ◌+◌, ◌*◌, ◌^◌, ◌<◌, ◌≤◌, length};
ghost use Rattle.vdev_map.specs.Limits.{IsHead, EachRow};
ghost use Rattle.vdev_map.specs.Numbers.{IsIn, row_at};
ghost use Rattle.vdev_map.specs.Places.{rounded, slot_place, table_place, log_len, log_place, room_of, words_len, metaslab_len, metaslabs_place, row_place, place_of, len_of, IsPiece, IsApart};

use crate::{Form, Head};
use zms_units::{Group, MsId, VdevRow};

/// The place of ring slot 0.
const RING_PLACE: u64 = 4096;

/// The length of a ring slot.
const SLOT_LEN: u64 = 1024;

/// How many ring slots there are.
const SLOTS: u64 = 128;

/// The place of table slot 0.
const TABLES_PLACE: u64 = 135_168;

/// The length of a table slot.
const TABLE_LEN: u64 = 262_144;

/// How many table slots, and how many whole slots of a metaslab, there are.
const TABLES: u64 = 8;

/// The place of what lies behind the table slots.
const BEHIND_PLACE: u64 = 2_232_320;

/// A thing on the pool device.
#[derive(Clone, Copy, Debug, PartialEq, Eq)]
pub enum Piece {
    /// The head.
    Front,
    /// The ring slot of a group.
    Slot(Group),
    /// The table slot of a group.
    Table(Group),
    /// The log slot of a group.
    Log(Group),
    /// The whole slot of a metaslab for a group.
    WholeSlot(MsId, Group),
    /// One of the two sides of a metaslab.
    Side(MsId, u8),
}

/// A byte range of the pool device.
#[derive(Clone, Copy, Debug, PartialEq, Eq)]
pub struct Span {
    pub at: u64,
    pub len: u64,
}

/// Rounds up to whole blocks of 4096 bytes.
fn round_up(bytes: u64) -> u64
    requires { bytes < 2 ^ 40 }
    ensures { result ≡ rounded bytes }
{
    bytes.div_ceil(4096) * 4096
}

/// The place of the ring slot of a group, in bytes: OpenZFS's `txg % VDEV_UBERBLOCK_COUNT` without multihost.
pub fn slot_place(group: Group) -> u64
    ensures { result ≡ slot_place group.0 }
{
    RING_PLACE + SLOT_LEN * (group.0 % SLOTS)
}

/// The place of the table slot of a group, in bytes.
pub fn table_place(group: Group) -> u64
    ensures { result ≡ table_place group.0 }
{
    TABLES_PLACE + TABLE_LEN * (group.0 % TABLES)
}

/// The length of a log slot in bytes, for the most runs that a group logs.
pub fn log_len(log: u32) -> u64
    requires { log ≤ 65536 }
    ensures { result ≡ log_len log }
{
    round_up(32 * u64::from(log))
}

/// The place of the log slot of a group, in bytes.
pub fn log_place(head: &Head, group: Group) -> u64
    requires { IsHead head.now }
    ensures { result ≡ log_place head.now group.0 }
{
    BEHIND_PLACE + log_len(head.log) * (group.0 % u64::from(head.flush + 4))
}

/// The most words that a whole slot or a side of a metaslab of so many units has room for.
pub fn room_of(form: Form, units: u32) -> u64
    requires { units ≤ 131072 }
    ensures { result ≡ room_of form units }
{
    match form {
        Form::Whole => u64::from(units) + 64,
        Form::Logged => 4 * u64::from(units) + 64,
    }
}

/// The length of a whole slot, or of a side, in bytes.
fn words_len(form: Form, units: u32) -> u64
    requires { units ≤ 131072 }
    ensures { result ≡ words_len form units }
{
    round_up(8 * room_of(form, units))
}

/// How many bytes a metaslab of a vdev has.
fn metaslab_len(form: Form, row: &VdevRow) -> u64
    requires { row.now.units ≤ 131072 }
    ensures len { result ≡ metaslab_len form row.now }
    ensures bound { result < 2 ^ 24 }
{
    match form {
        Form::Whole => 8 * words_len(form, row.units),
        Form::Logged => 2 * words_len(form, row.units),
    }
}

/// The place at which the metaslabs begin.
fn metaslabs_place(head: &Head) -> u64
    requires { IsHead head.now }
    ensures place { result ≡ metaslabs_place head.now.form head.now.flush head.now.log }
    ensures bound { result < 2 ^ 30 }
{
    match head.form {
        Form::Whole => BEHIND_PLACE,
        Form::Logged => BEHIND_PLACE + log_len(head.log) * u64::from(head.flush + 4),
    }
}

/// The place at which a metaslab begins, in bytes. Linear in the vdevs.
pub fn row_place(head: &Head, vdevs: &[VdevRow], id: MsId) -> u64
    requires head { IsHead head.now }
    requires count { length vdevs.now ≤ 256 }
    requires units { EachRow (λ row. row.units ≤ 131072) vdevs.now }
    requires id { IsIn vdevs.now id }
    ensures place { result ≡ row_place head.now vdevs.now id }
    ensures bound { result < 2 ^ 50 }
{
    let mut place = metaslabs_place(head);
    for row in &vdevs[..id.vdev as usize] {
        place += u64::from(row.metaslabs) * metaslab_len(head.form, row);
    }
    place + u64::from(id.index) * metaslab_len(head.form, &vdevs[id.vdev as usize])
}

/// Where a thing lies. No other thing has a byte in common with it. Linear in the vdevs.
pub fn span_of(head: &Head, vdevs: &[VdevRow], piece: Piece) -> Span
    requires head { IsHead head.now }
    requires count { length vdevs.now ≤ 256 }
    requires units { EachRow (λ row. row.units ≤ 131072) vdevs.now }
    requires piece { IsPiece head.now vdevs.now piece }
    ensures at { result.at ≡ place_of head.now vdevs.now piece }
    ensures len { result.len ≡ len_of head.now vdevs.now piece }
    ensures apart { IsApart head.now vdevs.now piece result.at result.len }
{
    match piece {
        Piece::Front => Span {
            at: 0,
            len: RING_PLACE,
        },
        Piece::Slot(group) => Span {
            at: slot_place(group),
            len: SLOT_LEN,
        },
        Piece::Table(group) => Span {
            at: table_place(group),
            len: TABLE_LEN,
        },
        Piece::Log(group) => Span {
            at: log_place(head, group),
            len: log_len(head.log),
        },
        Piece::WholeSlot(id, group) => part_of(head, vdevs, id, group.0 % TABLES),
        Piece::Side(id, side) => part_of(head, vdevs, id, u64::from(side)),
    }
}

/// The n-th of the parts of one length of which a metaslab is made.
fn part_of(head: &Head, vdevs: &[VdevRow], id: MsId, n: u64) -> Span
    requires head { IsHead head.now }
    requires count { length vdevs.now ≤ 256 }
    requires units { EachRow (λ row. row.units ≤ 131072) vdevs.now }
    requires id { IsIn vdevs.now id }
    requires n { n < 8 }
    ensures at { result.at ≡ row_place head.now vdevs.now id + words_len head.now.form (row_at vdevs.now id.vdev).units * n }
    ensures len { result.len ≡ words_len head.now.form (row_at vdevs.now id.vdev).units }
{
    let len = words_len(head.form, vdevs[id.vdev as usize].units);
    let at = row_place(head, vdevs, id) + len * n;
    Span { at, len }
}
