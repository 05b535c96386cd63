// Reading a plan: its bytes in, a record out, and the rest of the plan in the lent memory.
ghost use Rattle.std.specs.Prelude.{◌≡◌, ◌<◌, ◌≤◌, length, replicate, Some, Decides, MatchResult};
ghost use Rattle.kinds.specs.Refusals.{number_of, offset_of};
ghost use Rattle.plans.specs.Faults.{fault_number};
ghost use Rattle.plans.specs.Holdings.{blank};
ghost use Rattle.plans.specs.Readings.{vacant, Accepted, RefusedAs, Outcome, ReadAs};

use crate::fault::{Fault, Stop};
use crate::grid_plan::read_grid;
use crate::plan::Plan;
use crate::road_plan::read_road;
use kinds::refusal::Refusal;
use tables::index::clear;

// The longest plan, in bytes.
pub const LONGEST_PLAN: usize = 65_535;

// How many bytes of plan memory reading takes.
pub const PLAN_MEMORY: usize = 10_240;

// How many index slots reading takes.
pub const PLAN_SLOTS: usize = 1_024;

// The refusal that a fault leads to. No From<Stop>, which may ask for nothing: a refusal has no place for an offset past 65,535.
fn refusal(stop: Stop) -> Refusal
    requires { stop.at ≤ 65535 }
    ensures number { number_of result ≡ fault_number stop.fault }
    ensures offset { offset_of result ≡ Some stop.at }
{
    let at = stop.at as u16;
    match stop.fault {
        Fault::UnknownCommand => Refusal::UnknownCommand(at),
        Fault::CutShort => Refusal::CutShort(at),
        Fault::OutOfRange => Refusal::OutOfRange(at),
        Fault::GivenTwice => Refusal::GivenTwice(at),
        Fault::BadEnds => Refusal::BadEnds(at),
        Fault::TooMany => Refusal::TooMany(at),
        Fault::AfterEnd => Refusal::AfterEnd(at),
    }
}

// Reads a plan of either kind into blank memory. That it is blank and the bytes are few are facts of the start, and not of
// a value; memory and slots are lent one by one.
fn read_kind(bytes: &[u8], memory: &mut [u8], slots: &mut [u16]) -> Result<Plan, Refusal>
    requires { (length bytes.now ≤ 65535) × ((memory.old ≡ blank) × (slots.old ≡ vacant)) }
    ensures said { MatchResult result (λ p. Accepted bytes.now p memory.new) (λ e. RefusedAs bytes.now e) }
    ensures vacant { slots.new ≡ vacant }
{
    let [letter, operands @ ..] = bytes else {
        return Err(Refusal::NotAPlan);
    };
    match char::from(*letter) {
        'G' => Ok(Plan::Grid(read_grid(operands, memory).map_err(refusal)?)),
        'M' => Ok(Plan::Road(read_road(operands, memory, slots).map_err(refusal)?)),
        _ => Err(Refusal::NotAPlan),
    }
}

// The lent plan memory while it is read: zero again at the end, unless the plan is accepted.
struct Guard<'a> {
    bytes: &'a mut [u8],
}

impl Guard<'_> {
    // Leaves the memory as it is.
    fn accept(self)
        ensures { self.exit.0.now ≡ self.entry.bytes.now }
    {
        let Guard { bytes: _ } = self;
    }
}

impl Drop for Guard<'_> {
    fn drop(self)
        ensures { self.exit.0.now ≡ replicate (length self.entry.bytes.now) 0 }
    {
        self.bytes.fill(0);
        let Guard { bytes: _ } = self;
    }
}

// Reads a plan into memory and slots of the right sizes, whatever they hold.
fn read_guarded(bytes: &[u8], memory: &mut [u8], slots: &mut [u16]) -> Result<Plan, Refusal>
    requires { (length bytes.now ≤ 65535) × ((length memory.old ≡ 10240) × (length slots.old ≡ 1024)) }
    ensures said { Outcome bytes.now memory.new result }
    ensures vacant { slots.new ≡ vacant }
{
    let guard = Guard { bytes: memory };
    guard.bytes.fill(0);
    clear(slots);
    let plan = read_kind(bytes, guard.bytes, slots)?;
    guard.accept();
    Ok(plan)
}

// Whether a plan of so many bytes is too long to be read. Not one with the test of a cable: they would share only `>`.
fn is_too_long(bytes: usize) -> bool
    ensures { Decides result (65535 < bytes) }
{
    bytes > LONGEST_PLAN
}

// Whether plan memory and slots have the sizes that reading takes.
fn has_sizes(memory: usize, slots: usize) -> bool
    ensures { Decides result ((memory ≡ 10240) × (slots ≡ 1024)) }
{
    memory == PLAN_MEMORY && slots == PLAN_SLOTS
}

// Reads a plan: its record, with the memory as its commands say; or a refusal.
pub fn read(bytes: &[u8], memory: &mut [u8], slots: &mut [u16]) -> Result<Plan, Refusal>
    ensures { ReadAs bytes.now memory.old slots.old memory.new slots.new result }
{
    if is_too_long(bytes.len()) {
        return Err(Refusal::PlanTooLong);
    }
    if !has_sizes(memory.len(), slots.len()) {
        return Err(Refusal::MemorySize);
    }
    read_guarded(bytes, memory, slots)
}
