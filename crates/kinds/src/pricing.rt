// The end, class and cost of a run, lane by lane.
ghost use Rattle.std.specs.Prelude.{◌≡◌, ◌+◌, ◌^◌, ◌<◌};
ghost use Rattle.kinds.specs.Pricing.{Stepped, halted_at, Prices};

use crate::class::Class;
use crate::cost::Cost;
use crate::map::Map;
use std::error::Error;
use std::fmt;

// Where a run has come to, with its class and cost so far.
#[derive(Clone, Copy)]
pub struct Along<C, K> {
    pub end: u16,
    pub class: C,
    pub cost: K,
}

// Why a run cannot go on by one lane more: there is no such lane, or the class after it is not held.
#[derive(Clone, Copy, PartialEq, Eq, Debug)]
pub enum Halt {
    NoLane,
    NotHeld,
}

impl Halt {
    // Why a run that halts at the lane at this place of its list has no price.
    fn at(self, place: usize) -> Unpriced
        requires { place + 1 < 2 ^ 64 }
        ensures { result ≡ halted_at self place }
    {
        match self {
            Halt::NoLane => Unpriced::LaneMissing(place),
            Halt::NotHeld => Unpriced::ClassNotHeld(place + 1),
        }
    }
}

// Why a run has no price: the starting point is no point; the lane at this place of the list is missing; or the class after so many lanes is the first that is not held.
#[derive(Clone, Copy, PartialEq, Eq, Debug)]
pub enum Unpriced {
    NoPoint,
    LaneMissing(usize),
    ClassNotHeld(usize),
}

// Goes on by one lane.
pub fn go_on<M: Map, C: Class, K: Cost>(
    map: &M,
    along: Along<C, K>,
    number: u16,
) -> Result<Along<C, K>, Halt>
    ensures { Stepped M.Map C.Class K.Cost map.now along number result }
{
    let lane = map.lane(along.end, number).ok_or(Halt::NoLane)?;
    let class = along.class.after(lane.crossing).ok_or(Halt::NotHeld)?;
    let more = K::of_lane(u32::from(lane.length), lane.risk);
    Ok(Along {
        end: lane.to,
        class,
        cost: along.cost.plus(more),
    })
}

// The end, class and cost of the run from a point along the lanes with these numbers.
pub fn price<M: Map, C: Class, K: Cost>(
    map: &M,
    from: u16,
    numbers: &[u16],
) -> Result<Along<C, K>, Unpriced>
    ensures { Prices M.Map C.Class K.Cost map.now from numbers.now result }
{
    if from >= map.points() {
        return Err(Unpriced::NoPoint);
    }
    let mut along = Along {
        end: from,
        class: C::unit(),
        cost: K::zero(),
    };
    for (place, number) in numbers.iter().enumerate() {
        along = go_on(map, along, *number).map_err(|halt| halt.at(place))?;
    }
    Ok(along)
}

impl fmt::Display for Halt {
    fn fmt<W: fmt::Write>(&self, f: &mut fmt::Formatter<W>) -> fmt::Result {
        match self {
            Halt::NoLane => write!(f, "the lane is missing"),
            Halt::NotHeld => write!(f, "the class is not held"),
        }
    }
}

impl Error for Halt {}

impl fmt::Display for Unpriced {
    fn fmt<W: fmt::Write>(&self, f: &mut fmt::Formatter<W>) -> fmt::Result {
        match self {
            Unpriced::NoPoint => write!(f, "the run begins at no point of the map"),
            Unpriced::LaneMissing(place) => write!(f, "the lane at place {place} is missing"),
            Unpriced::ClassNotHeld(count) => {
                write!(f, "the class after {count} lanes is not held")
            }
        }
    }
}

impl Error for Unpriced {}
