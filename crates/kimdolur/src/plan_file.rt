// A plan file: its record, and the memory that the rest of the plan lies in.
use anyhow::anyhow;
use plans::plan::Plan;
use plans::reading;
use plans::reading::{PLAN_MEMORY, PLAN_SLOTS};
use std::fs;

// A plan that was read, with its memory.
#[derive(Drop)]
pub(crate) struct Held {
    pub(crate) plan: Plan,
    pub(crate) memory: Vec<u8>,
}

// Reads the bytes of a file, or says that they cannot be read.
fn bytes_of(rt: &HostRuntime, path: &str) -> anyhow::Result<Vec<u8>> {
    fs::read(rt, path).map_err(|error| anyhow!("the plan cannot be read: {error}: {path}"))
}

// Reads the plan in a file.
pub(crate) fn read(rt: &HostRuntime, path: &str) -> anyhow::Result<Held> {
    let heap = rt.alloc();
    let bytes = bytes_of(rt, path)?;
    let mut memory = vec![in heap; 0u8; PLAN_MEMORY]?;
    let mut slots = vec![in heap; 0u16; PLAN_SLOTS]?;
    let plan = reading::read(&bytes, &mut memory, &mut slots)?;
    Ok(Held { plan, memory })
}
