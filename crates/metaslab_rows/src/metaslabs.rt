//! Calls on one metaslab, opened in group 4.

ghost use Rattle.std.specs.Prelude.{◌≡◌, ◌≤◌, [], true, IfOk, ℕ};
ghost use Rattle.zms_units.specs.Segments.{AreSegs};
ghost use Rattle.ms_model.specs.Legal.{IsWithin};

use ms_core::{Metaslab, MsFault, RunBuf};
use row_tables::{Calls, Words, are_segs, read_segs, segs_text};
use seg_trees::SegTrees;
use std::alloc::{AllocError, Global};
use zms_units::{Class, Group, MsId, Seg, VdevRow};

/// The metaslab that the last row `new` or `load` made.
#[derive(Drop)]
pub struct MetaslabCalls<T: SegTrees> {
    metaslab: Option<Metaslab<T>>,
}

/// A lane, a group and a segment.
struct Asked {
    lane: u8,
    group: Group,
    seg: Seg,
}

fn asked_of(words: &mut Words<'_>) -> Option<Asked> {
    let lane = words.byte()?;
    let group = Group(words.number()?);
    let (start, count) = words.pair()?;
    Some(Asked {
        lane,
        group,
        seg: Seg { start, count },
    })
}

fn text(alloc: Global, word: &str) -> Result<String, AllocError> {
    String::from_str(alloc, word)
}

fn fault_text(alloc: Global, fault: MsFault) -> Result<String, AllocError> {
    match fault {
        MsFault::NotLoaded => text(alloc, "notloaded"),
        MsFault::NotLive { unit } => format!(in alloc; "notlive {unit}"),
        MsFault::Late { group, collected } => format!(in alloc; "late {group} {collected}"),
        MsFault::Short { need } => format!(in alloc; "short {need}"),
        _ => text(alloc, "another fault"),
    }
}

/// A metaslab of so many units of 4096 bytes, which holds these.
fn holding<T: SegTrees + Drop>(
    alloc: Global,
    units: u32,
    held: &[Seg],
) -> Result<Metaslab<T>, AllocError>
    requires units { (64 ≤ units) × (units ≤ 131072) }
    requires held { AreSegs units held.now }
    ensures units { IfOk result (λ metaslab. metaslab.units ≡ units) }
    ensures base { IfOk result (λ metaslab. metaslab.base ≡ held.now) }
    ensures notes { IfOk result (λ metaslab. metaslab.notes ≡ []) }
{
    let id = MsId { vdev: 0, index: 0 };
    let row = VdevRow {
        class: Class::Normal,
        ashift: 12,
        units,
        metaslabs: 1,
    };
    let base = Vec::from_slice(alloc, held)?;
    match Metaslab::new(alloc, id, &row, Group(4), base) {
        Ok(metaslab) => Ok(metaslab),
        Err(_) => Err(AllocError),
    }
}

/// The same, with its free space in memory.
fn loaded<T: SegTrees + Drop>(
    alloc: Global,
    units: u32,
    held: &[Seg],
) -> Result<Metaslab<T>, AllocError>
    requires units { (64 ≤ units) × (units ≤ 131072) }
    requires held { AreSegs units held.now }
{
    let mut metaslab = holding(alloc, units, held)?;
    metaslab.load(1, held)?;
    Ok(metaslab)
}

fn is_lane(lane: u8) -> bool
    ensures { result ≡ true → (1 ≤ lane) × (lane ≤ 16) }
{
    1 <= lane && lane <= 16
}

fn is_within(units: u32, seg: Seg) -> bool
    ensures { result ≡ true → IsWithin units seg }
{
    seg.count > 0 && seg.count <= units && seg.start <= units - seg.count
}

/// `LANE GROUP COUNT`
fn grant<T: SegTrees + Drop>(
    alloc: Global,
    metaslab: &mut Metaslab<T>,
    words: &mut Words<'_>,
) -> Result<String, AllocError> {
    let (Some(lane), Some(group), Some(count)) = (words.byte(), words.number(), words.small())
    else {
        return text(alloc, "no call");
    };
    metaslab.ready()?;
    if !is_lane(lane)
        || group.saturating_sub(3) > metaslab.settled().0
        || count < 1
        || count > 131_072
    {
        return text(alloc, "no call");
    }
    match metaslab.grant(lane, Group(group), count) {
        Ok(Some(seg)) => format!(in alloc; "{}:{}", seg.start, seg.count),
        Ok(None) => text(alloc, "none"),
        Err(fault) => fault_text(alloc, fault),
    }
}

/// `LANE GROUP START:COUNT`, a free or a take-back
fn give_back<T: SegTrees + Drop>(
    alloc: Global,
    metaslab: &mut Metaslab<T>,
    is_free: bool,
    words: &mut Words<'_>,
) -> Result<String, AllocError> {
    let Some(Asked { lane, group, seg }) = asked_of(words) else {
        return text(alloc, "no call");
    };
    metaslab.ready()?;
    if !is_lane(lane)
        || group.0.saturating_sub(3) > metaslab.settled().0
        || !is_within(metaslab.units(), seg)
    {
        return text(alloc, "no call");
    }
    let answer = if is_free {
        metaslab.free(lane, group, seg)
    } else {
        metaslab.unalloc(lane, group, seg)
    };
    match answer {
        Ok(()) => text(alloc, "done"),
        Err(fault) => fault_text(alloc, fault),
    }
}

/// `LANE GROUP ROOM`: the runs that the group gained and gave back.
fn collect<T: SegTrees + Drop>(
    alloc: Global,
    metaslab: &mut Metaslab<T>,
    words: &mut Words<'_>,
) -> Result<String, AllocError> {
    let (Some(lane), Some(group), Some(room)) = (words.byte(), words.number(), words.small()) else {
        return text(alloc, "no call");
    };
    metaslab.ready()?;
    if !is_lane(lane) || group == 0 || group - 1 != metaslab.collected().0 {
        return text(alloc, "no call");
    }
    let mut buf = RunBuf::new(alloc);
    buf.reserve(u64::from(room))?;
    match metaslab.collect(lane, Group(group), &mut buf) {
        Ok(()) => {
            let gained = segs_text(alloc, &buf.allocs)?;
            let given = segs_text(alloc, &buf.frees)?;
            format!(in alloc; "gained {gained} gave back {given}")
        }
        Err(fault) => fault_text(alloc, fault),
    }
}

/// `LANE GROUP`
fn settle<T: SegTrees + Drop>(
    alloc: Global,
    metaslab: &mut Metaslab<T>,
    words: &mut Words<'_>,
) -> Result<String, AllocError> {
    match (words.byte(), words.number()) {
        (Some(lane), Some(group))
            if is_lane(lane)
                && group > 0
                && group - 1 == metaslab.settled().0
                && group <= metaslab.collected().0 => {
            metaslab.settle(lane, Group(group));
            text(alloc, "done")
        }
        _ => text(alloc, "no call"),
    }
}

fn counts<T: SegTrees + Drop>(alloc: Global, metaslab: &Metaslab<T>) -> Result<String, AllocError> {
    let counts = metaslab.counts();
    format!(in alloc;
        "live {} deferred {} vacant {}",
        counts.live, counts.deferred, counts.vacant
    )
}

impl<T: SegTrees + Drop> MetaslabCalls<T> {
    pub fn new() -> Self {
        MetaslabCalls { metaslab: None }
    }

    /// `UNITS START:COUNT ..`
    fn begin(
        &mut self,
        alloc: Global,
        loads: bool,
        words: &mut Words<'_>,
    ) -> Result<String, AllocError> {
        let (Some(units), Some(held)) = (words.small(), read_segs(alloc, words)?) else {
            return text(alloc, "no call");
        };
        if units < 64 || units > 131_072 || !are_segs(units, &held) {
            return text(alloc, "no call");
        }
        let metaslab = if loads {
            loaded(alloc, units, &held)?
        } else {
            holding(alloc, units, &held)?
        };
        let answer = format!(in alloc; "loaded {}", metaslab.loaded())?;
        self.metaslab = Some(metaslab);
        Ok(answer)
    }

    /// Ends the metaslab, and answers what its journal says of it.
    fn end(&mut self, alloc: Global) -> Result<String, AllocError> {
        match self.metaslab.take() {
            Some(metaslab) => {
                let journal = metaslab.into_journal();
                format!(in alloc;
                    "units {} held {} notes {}",
                    journal.units,
                    journal.held,
                    journal.notes.len()
                )
            }
            None => text(alloc, "no call"),
        }
    }
}

/// A call on the metaslab that is there.
fn act<T: SegTrees + Drop>(
    alloc: Global,
    metaslab: &mut Metaslab<T>,
    name: &str,
    words: &mut Words<'_>,
) -> Result<String, AllocError> {
    match name {
        "grant" => grant(alloc, metaslab, words),
        "free" => give_back(alloc, metaslab, true, words),
        "unalloc" => give_back(alloc, metaslab, false, words),
        "collect" => collect(alloc, metaslab, words),
        "settle" => settle(alloc, metaslab, words),
        "counts" => counts(alloc, metaslab),
        "weight" => format!(in alloc; "{:016x}", metaslab.weight()),
        _ => text(alloc, "no call"),
    }
}

impl<T: SegTrees + Drop> Calls for MetaslabCalls<T> {
    fn answer(&mut self, alloc: Global, words: &mut Words<'_>) -> Result<String, AllocError> {
        match words.word() {
            "new" => self.begin(alloc, false, words),
            "load" => self.begin(alloc, true, words),
            "end" => self.end(alloc),
            name => match &mut self.metaslab {
                Some(metaslab) => act(alloc, metaslab, name, words),
                None => text(alloc, "no call"),
            },
        }
    }
}
