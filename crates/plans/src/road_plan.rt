// Reading a roadmap: points and lanes, up to the end command.
ghost use Rattle.std.specs.Prelude.{◌≡◌, ◌+◌, ◌*◌, ◌<◌, ◌≤◌, List, [], ◌∷◌, ◌++◌, length, replicate, Decides, MatchOption, MatchResult, ◌≢◌};
ghost use Rattle.tables.specs.Indexes.{Keeps};
ghost use Rattle.plans.specs.Faults.{fault_number};
ghost use Rattle.plans.specs.Plans.{Command, CrossingByte, four, spell, Reads, refused, road as opening, point as pointing, join as joining};
ghost use Rattle.plans.specs.Surveys.{survey_place, survey_at, numbers};
ghost use Rattle.plans.specs.RoadPlans.{lane_bytes, Accepts};
ghost use Rattle.plans.specs.Holdings.{blank};
ghost use Rattle.plans.specs.RoadSteps.{put, Finds, Enters, NoEnds, BothEnds, Holds, Takes, Judged};

use crate::fault::{Fault, Stop};
use crate::plan::Road;
use crate::ray::crossing_of;
use crate::reader::{Reader, read_commands};
use crate::road::{LANES, POINTS};
use crate::survey::{Surveys, survey_place};
use tables::index::{clear, find, insert};

// The operands of a lane command: two survey numbers, and what lies between.
// The crossing stays the byte that is written.
#[derive(Clone, Copy)]
struct Join {
    first: u32,
    second: u32,
    length: u16,
    risk: u8,
    crossing: u8,
}

// The survey number at the front of the bytes, and the rest.
fn take_number(bytes: &[u8]) -> Result<(u32, &[u8]), Fault>
    ensures { MatchResult result (λ p. bytes.now ≡ four p.0 ++ p.1.now) (λ f. (f ≡ Fault.CutShort) × (length bytes.now < 4)) }
{
    let [a, b, c, d, rest @ ..] = bytes else {
        return Err(Fault::CutShort);
    };
    Ok((u32::from_be_bytes([*a, *b, *c, *d]), rest))
}

// The operands of a lane command at the front of the bytes, and the rest.
fn take_join(bytes: &[u8]) -> Result<(Join, &[u8]), Fault>
    ensures { MatchResult result (λ p. 65 ∷ bytes.now ≡ spell (joining p.0.first p.0.second p.0.length p.0.risk p.0.crossing) ++ p.1.now) (λ f. (f ≡ Fault.CutShort) × (length bytes.now < 12)) }
{
    let (first, bytes) = take_number(bytes)?;
    let (second, bytes) = take_number(bytes)?;
    let [high, low, risk, crossing, rest @ ..] = bytes else {
        return Err(Fault::CutShort);
    };
    let join = Join {
        first,
        second,
        length: u16::from_be_bytes([*high, *low]),
        risk: *risk,
        crossing: *crossing,
    };
    Ok((join, rest))
}

// Whether a lane may have this length and crossing byte.
fn is_in_range(length: u16, crossing: u8) -> bool
    ensures { Decides result ((1 ≤ length) × CrossingByte crossing) }
{
    length >= 1 && crossing_of(crossing).is_some()
}

// Whether two survey numbers differ.
fn is_other(first: u32, second: u32) -> bool
    ensures { Decides result (first ≢ second) }
{
    first != second
}

// Whether there is room for one more point. Apart from the next, since each names a limit of its own, and one for both would only be `<`.
fn has_point_room(points: u16) -> bool
    ensures { Decides result (points < 512) }
{
    points < POINTS
}

// Whether there is room for one more lane.
fn has_lane_room(lanes: u16) -> bool
    ensures { Decides result (lanes < 1024) }
{
    lanes < LANES
}

// Lets the index name the point, which has the survey number. No other survey number is looked at.
fn enter_point(survey: u32, point: u16, slots: &mut [u16])
    ensures placed { Enters survey point slots.old slots.new }
    ensures kept { Keeps numbers survey point slots.old slots.new }
{
    let others = Surveys {
        memory: &[],
        count: 0,
    };
    let _ = insert(slots, &others, &survey, point);
}

// Writes the bytes from a place on.
fn write(memory: &mut [u8], at: usize, bytes: &[u8])
    requires { at + length bytes.now ≤ length memory.old }
    ensures { memory.new ≡ put memory.old at bytes.now }
{
    memory[at..at + bytes.len()].copy_from_slice(bytes);
}

// Writes the survey number of a point.
fn write_survey(memory: &mut [u8], point: u16, survey: u32)
    requires { survey_place point + 4 ≤ length memory.old }
    ensures { memory.new ≡ put memory.old (survey_place point) (four survey) }
{
    write(memory, survey_place(point), &survey.to_be_bytes());
}

// Writes the record of a lane between two points.
fn write_lane(memory: &mut [u8], lane: u16, first: u16, second: u16, join: Join)
    requires { 8 * lane + 8 ≤ length memory.old }
    ensures { memory.new ≡ put memory.old (8 * lane) (lane_bytes first second join.length join.risk join.crossing) }
{
    let [a, b] = first.to_be_bytes();
    let [c, d] = second.to_be_bytes();
    let [e, f] = join.length.to_be_bytes();
    write(
        memory,
        8 * usize::from(lane),
        &[a, b, c, d, e, f, join.risk, join.crossing],
    );
}

// A roadmap while its commands are read, and the memory and the index slots that are lent for it.
#[derive(Drop)]
struct RoadReader<'a> {
    road: Road,
    memory: &'a mut [u8],
    slots: &'a mut [u16],
    ghost long: { length memory.now ≡ 10240 },
    ghost many: { length slots.now ≡ 1024 },
}

impl RoadReader<'_> {
    // The point with the survey number.
    fn point_of(&self, survey: u32) -> Option<u16>
        ensures { Finds (survey_at self.now.memory.now self.now.road.points) self.now.slots.now survey result }
    {
        let points = Surveys {
            memory: self.memory,
            count: self.road.points,
        };
        Some(find(self.slots, &points, &survey)?.place)
    }

    // The points at the ends of a lane, which must be known and differ.
    fn ends_of(&self, join: Join) -> Option<(u16, u16)>
        ensures { MatchOption result (NoEnds (survey_at self.now.memory.now self.now.road.points) self.now.slots.now join.first join.second) (λ p. BothEnds (survey_at self.now.memory.now self.now.road.points) join.first join.second p.0 p.1) }
    {
        if !is_other(join.first, join.second) {
            return None;
        }
        Some((self.point_of(join.first)?, self.point_of(join.second)?))
    }

    // Takes up one more point.
    fn add_point(&mut self, survey: u32) -> Result<(), Fault>
        ensures same_memory { self.new.memory.ghost_name ≡ self.old.memory.ghost_name }
        ensures same_slots { self.new.slots.ghost_name ≡ self.old.slots.ghost_name }
        ensures said { (cs : List Command) → Holds cs self.old.road self.old.memory.now self.old.slots.now → MatchResult result (λ _. Takes cs (pointing survey) self.new.road self.new.memory.now self.new.slots.now) (λ f. Judged opening cs (pointing survey) (fault_number f)) }
    {
        let point = self.road.points;
        if self.point_of(survey).is_some() {
            return Err(Fault::GivenTwice);
        }
        if !has_point_room(point) {
            return Err(Fault::TooMany);
        }
        write_survey(self.memory, point, survey);
        enter_point(survey, point, self.slots);
        self.road.points += 1;
        Ok(())
    }

    // Takes up one more lane.
    fn add_lane(&mut self, join: Join) -> Result<(), Fault>
        ensures same_memory { self.new.memory.ghost_name ≡ self.old.memory.ghost_name }
        ensures same_slots { self.new.slots.ghost_name ≡ self.old.slots.ghost_name }
        ensures said { (cs : List Command) → Holds cs self.old.road self.old.memory.now self.old.slots.now → MatchResult result (λ _. Takes cs (joining join.first join.second join.length join.risk join.crossing) self.new.road self.new.memory.now self.new.slots.now) (λ f. Judged opening cs (joining join.first join.second join.length join.risk join.crossing) (fault_number f)) }
    {
        if !is_in_range(join.length, join.crossing) {
            return Err(Fault::OutOfRange);
        }
        let (first, second) = self.ends_of(join).ok_or(Fault::BadEnds)?;
        if !has_lane_room(self.road.lanes) {
            return Err(Fault::TooMany);
        }
        write_lane(self.memory, self.road.lanes, first, second, join);
        self.road.lanes += 1;
        Ok(())
    }
}

impl Reader for RoadReader<'_> {
    ghost head = { λ _. opening };

    ghost holds = { λ cs r. Holds cs r.road r.memory.now r.slots.now };

    ghost lent = { λ r. r.memory.ghost_name ∷ r.slots.ghost_name ∷ [] };

    fn take<'a>(&mut self, letter: u8, operands: &'a [u8]) -> Result<&'a [u8], Stop> {
        match letter {
            b'P' => {
                let (survey, next) = take_number(operands)?;
                self.add_point(survey)?;
                Ok(next)
            }
            b'A' => {
                let (join, next) = take_join(operands)?;
                self.add_lane(join)?;
                Ok(next)
            }
            _ => Err(Fault::UnknownCommand.into()),
        }
    }
}

// Makes the slots vacant.
fn vacate(slots: &mut [u16])
    requires { length slots.old ≡ 1024 }
    ensures { slots.new ≡ replicate 1024 0 }
{
    clear(slots);
}

// Reads a roadmap from behind its letter into blank memory. The slots are vacant again after every end.
pub(crate) fn read_road(operands: &[u8], memory: &mut [u8], slots: &mut [u16]) -> Result<Road, Stop>
    requires zeroed { memory.old ≡ blank }
    requires vacant { slots.old ≡ replicate 1024 0 }
    requires short { length operands.now < 65535 }
    ensures said { MatchResult result (λ p. Accepts (77 ∷ operands.now) p memory.new) (λ e. Reads (77 ∷ operands.now) (refused (fault_number e.fault) e.at)) }
    ensures vacant { slots.new ≡ replicate 1024 0 }
{
    let road = Road {
        points: 0,
        lanes: 0,
    };
    let mut reader = RoadReader {
        road,
        memory,
        slots,
    };
    let answer = read_commands(&mut reader, operands);
    let RoadReader {
        road,
        memory: _memory,
        slots,
    } = reader;
    vacate(slots);
    answer.map_err(|stop| stop.after(1))?;
    Ok(road)
}
