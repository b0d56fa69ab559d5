//! Notes as a trace writes them.

use ms_model::{Act, ClassNote, Got, KeeperNote, Kind, Noted, Start, WorkKind};
use row_tables::Words;
use zms_units::{Class, Group, MsId, Seg};

fn group_of(words: &mut Words<'_>) -> Option<Group> {
    Some(Group(words.number()?))
}

fn seg_of(words: &mut Words<'_>) -> Option<Seg> {
    Some(Seg {
        start: words.small()?,
        count: words.small()?,
    })
}

fn index_of(words: &mut Words<'_>) -> Option<u16> {
    words.word().parse::<u16>().ok()
}

pub fn id_of(words: &mut Words<'_>) -> Option<MsId> {
    Some(MsId {
        vdev: words.byte()?,
        index: index_of(words)?,
    })
}

fn work_of(words: &mut Words<'_>) -> Option<Act> {
    let worker = words.byte()?;
    let kind = match words.word() {
        "init" => WorkKind::Init,
        "trim" => WorkKind::Trim,
        _ => return None,
    };
    let seg = seg_of(words)?;
    Some(Act::Work { worker, kind, seg })
}

/// An act that names a group and a segment.
fn moved_of(name: &str, words: &mut Words<'_>) -> Option<Act> {
    let group = group_of(words)?;
    let seg = seg_of(words)?;
    match name {
        "grant" => Some(Act::Grant { group, seg }),
        "free" => Some(Act::Free { group, seg }),
        "unalloc" => Some(Act::Unalloc { group, seg }),
        _ => None,
    }
}

fn act_of(words: &mut Words<'_>) -> Option<Act> {
    let name = words.word();
    match name {
        "load" => Some(Act::Load),
        "unload" => Some(Act::Unload),
        "shut" => Some(Act::Shut),
        "miss" => Some(Act::Miss {
            count: words.small()?,
        }),
        "collect" => Some(Act::Collect {
            group: group_of(words)?,
        }),
        "settle" => Some(Act::Settle {
            group: group_of(words)?,
        }),
        "disable" => Some(Act::Disable {
            worker: words.byte()?,
        }),
        "enable" => Some(Act::Enable {
            worker: words.byte()?,
        }),
        "work" => work_of(words),
        _ => moved_of(name, words),
    }
}

/// `LANE ACT`
pub fn noted_of(words: &mut Words<'_>) -> Option<Noted> {
    Some(Noted {
        lane: words.byte()?,
        act: act_of(words)?,
    })
}

fn start_of(words: &mut Words<'_>) -> Option<Start> {
    match words.word() {
        "active" => Some(Start::Active),
        "top" => Some(Start::Top),
        "after" => Some(Start::After {
            index: index_of(words)?,
            weight: words.hex()?,
        }),
        _ => None,
    }
}

fn got_of(words: &mut Words<'_>) -> Option<Option<Got>> {
    match words.word() {
        "none" => Some(None),
        word => Some(Some(Got {
            index: word.parse::<u16>().ok()?,
            weight: words.hex()?,
        })),
    }
}

fn pick_of(words: &mut Words<'_>) -> Option<ClassNote> {
    let allocator = words.byte()?;
    let kind = match words.word() {
        "primary" => Kind::Primary,
        "secondary" => Kind::Secondary,
        _ => return None,
    };
    Some(ClassNote::Pick {
        allocator,
        kind,
        vdev: words.byte()?,
        bytes: words.number()?,
        start: start_of(words)?,
        got: got_of(words)?,
    })
}

fn class_note_of(words: &mut Words<'_>) -> Option<ClassNote> {
    match words.word() {
        "pick" => pick_of(words),
        "granted" => Some(ClassNote::Granted {
            id: id_of(words)?,
            bytes: words.number()?,
            weight: words.hex()?,
        }),
        "missed" => Some(ClassNote::Missed {
            id: id_of(words)?,
            weight: words.hex()?,
        }),
        "weigh" => Some(ClassNote::Weigh {
            id: id_of(words)?,
            weight: words.hex()?,
        }),
        _ => None,
    }
}

/// `LANE NOTE` of a class.
pub fn class_noted_of(words: &mut Words<'_>) -> Option<(u8, ClassNote)> {
    Some((words.byte()?, class_note_of(words)?))
}

fn keeper_note_of(words: &mut Words<'_>) -> Option<KeeperNote> {
    match words.word() {
        "sync" => Some(KeeperNote::Sync {
            group: group_of(words)?,
        }),
        "fault" => Some(KeeperNote::Fault {
            before: words.number()?,
            after: words.number()?,
        }),
        "damaged" => Some(KeeperNote::Damaged { id: id_of(words)? }),
        _ => None,
    }
}

/// `LANE NOTE` of the keeper.
pub fn keeper_noted_of(words: &mut Words<'_>) -> Option<(u8, KeeperNote)> {
    Some((words.byte()?, keeper_note_of(words)?))
}

pub fn class_of(name: &str) -> Option<Class> {
    match name {
        "normal" => Some(Class::Normal),
        "log" => Some(Class::Log),
        "special" => Some(Class::Special),
        "dedup" => Some(Class::Dedup),
        _ => None,
    }
}
