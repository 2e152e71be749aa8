// A sheet on standard input, loaded and drawn again on standard output, or the refusal. A number as argument has it
// drawn that many times, for timing.
#![tactic(auto)]

use anyhow::anyhow;
use plan::items::{FaultNumber, Item, Mark};
use plan::refusals::Refusal;
use sheet::drawing::draw;
use sheet::faults::LoadFault;
use sheet::tables::Table;
use std::env;
use std::io::{Read, Write};

// The longest sheet has 4,096 rows.
const ROOM: usize = 8200;

// How often to draw: the argument, or once.
fn times(rt: &HostRuntime) -> anyhow::Result<u32> {
    match env::args(rt)?.nth(1) {
        Some(word) => Ok(word.as_str().parse::<u32>()?),
        None => Ok(1),
    }
}

// Loads a sheet for a kind of item and draws it again.
fn redraw<K: Item>(rt: &HostRuntime, bytes: &[u8], times: u32) -> anyhow::Result<()> {
    let mut table = Table::new(rt.alloc());
    match table.load::<K>(rt.alloc(), bytes) {
        Ok(_) => {}
        Err(LoadFault::BadSheet(fault)) => {
            let Refusal { cause, place, .. } = fault.into();
            println!(rt; "! {cause} H {place}")?;
            return Ok(());
        }
        Err(LoadFault::NoMemory) => return Err(anyhow!("no memory")),
    }
    let mut buffer = [0u8; ROOM];
    let mut drawn = 0;
    for _ in 0..times {
        if let Ok(n) = draw::<K, Table>(&table, &mut buffer) {
            drawn = n;
        }
    }
    if let Some(sheet) = buffer.get(..drawn) {
        rt.stdout().write_all(sheet)?;
    }
    Ok(())
}

fn run(rt: &HostRuntime) -> anyhow::Result<()> {
    let times = times(rt)?;
    let mut bytes = Vec::new(rt.alloc());
    rt.stdin().read_to_end(&mut bytes)?;
    let bytes = bytes.as_slice();
    match bytes.get(5) {
        Some(kind) if u32::from(*kind) == FaultNumber::GREATEST => redraw::<FaultNumber>(
            rt, bytes, times,
        ),
        _ => redraw::<Mark>(rt, bytes, times),
    }
}

fn main(rt: HostRuntime) -> anyhow::Result<()> {
    run(&rt)
}
