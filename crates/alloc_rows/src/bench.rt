//! What an alloc costs on a pool of one metaslab and on one of many: no row, since it depends on the machine.
use crate::pool::Pool;
use std::io;
use std::rt::Clock;
use std::sync::Wait;
use std::time::Instant;
use zms_units::{Class, VdevRow};

/// So many allocs of one unit are made on each pool. Its first metaslab, of 4096 units, has room for all.
const ALLOCS: u32 = 4000;

/// The weight of 4096 vacant units of 4096 bytes: one run of 2^24 bytes.
const WEIGHT: u64 = (24 << 54) + 1;

/// Makes a pool of so many metaslabs, and prints how many nanoseconds an alloc took on it.
fn allocs<R: Print + Clock + Wait + AllocGlobal>(rt: &R, metaslabs: u16) -> io::Result<()> {
    let memory = rt.alloc();
    let mut vdevs = Vec::new(memory);
    vdevs.push(VdevRow {
        class: Class::Normal,
        ashift: 12,
        units: 4096,
        metaslabs,
    })?;
    let mut weights = Vec::new(memory);
    for _ in 0..metaslabs {
        weights.push(WEIGHT)?;
    }
    let Some(mut pool) = Pool::new(memory, vdevs, weights)? else {
        return println!(rt; "no such pool");
    };
    let mut granted: u32 = 0;
    let start = Instant::now(rt)?;
    for _ in 0..ALLOCS {
        if pool.alloc(rt, memory, 4096, Class::Normal, 1).is_ok() {
            granted = granted.saturating_add(1);
        }
    }
    let took = start.elapsed(rt)?.as_nanos() / u128::from(ALLOCS);
    println!(rt; "{metaslabs} metaslabs: {took} ns an alloc, {granted} granted")
}

/// Pools of one metaslab and of 1024 in turn.
pub fn measure<R: Print + Clock + Wait + AllocGlobal>(rt: &R) -> io::Result<()> {
    for _ in 0..5 {
        allocs(rt, 1)?;
        allocs(rt, 1024)?;
    }
    Ok(())
}
