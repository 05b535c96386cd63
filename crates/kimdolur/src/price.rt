// `kimdolur price`: the end, class and cost of a run, lane by lane.
use crate::plan_file;
use crate::plan_file::Held;
use anyhow::{Context, anyhow};
use classes::sides::Sides;
use classes::words::Word;
use costs::length::Length;
use costs::slope::Slope;
use kinds::class::Class;
use kinds::cost::Cost;
use kinds::lane::Lane;
use kinds::map::Map;
use kinds::pricing;
use kinds::pricing::{Along, Unpriced};
use plans::grid::GridMap;
use plans::plan::Plan;
use plans::road::RoadMap;
use std::alloc::Global;
use std::fmt::Display;
use std::str::FromStr;

// The kind of classes that a run is priced in.
#[derive(Clone, Copy)]
enum Classes {
    Words,
    Sides,
}

// The kind of costs that a run is priced in.
#[derive(Clone, Copy)]
enum Costs {
    Length,
    Slope,
}

// What is to be priced: the run from a point along these lanes, in these kinds.
#[derive(Drop)]
struct Request {
    from: u16,
    lanes: Vec<u16>,
    classes: Classes,
    costs: Costs,
}

impl FromStr for Classes {
    type Err = anyhow::Error;

    fn from_str(word: &str) -> anyhow::Result<Classes> {
        match word {
            "words" => Ok(Classes::Words),
            "sides" => Ok(Classes::Sides),
            _ => Err(anyhow!("'{word}' is no kind of classes: use words or sides")),
        }
    }
}

impl FromStr for Costs {
    type Err = anyhow::Error;

    fn from_str(word: &str) -> anyhow::Result<Costs> {
        match word {
            "length" => Ok(Costs::Length),
            "slope" => Ok(Costs::Slope),
            _ => Err(anyhow!("'{word}' is no kind of costs: use length or slope")),
        }
    }
}

// The number that a word spells.
fn number(word: &str) -> anyhow::Result<u16> {
    word.parse::<u16>()
        .map_err(|_| anyhow!("'{word}' is no number from 0 to 65535"))
}

// The request that the words after the plan's name make.
fn read_request(heap: Global, from: &str, words: &[String]) -> anyhow::Result<Request> {
    let mut request = Request {
        from: number(from)?,
        lanes: Vec::new(heap),
        classes: Classes::Words,
        costs: Costs::Length,
    };
    let mut words = words.iter();
    while let Some(word) = words.next() {
        match word.as_str() {
            "--class" => {
                let name = words
                    .next()
                    .context("--class wants words or sides after it")?;
                request.classes = name.parse::<Classes>()?;
            }
            "--cost" => {
                let name = words
                    .next()
                    .context("--cost wants length or slope after it")?;
                request.costs = name.parse::<Costs>()?;
            }
            option if option.starts_with("-") => {
                return Err(anyhow!("no option '{option}'; kimdolur --help lists them"));
            }
            lane => request.lanes.push(number(lane)?)?,
        }
    }
    Ok(request)
}

// Adds the line of a lane that was gone.
fn add_lane<C: Display, K: Display>(
    out: &mut String,
    number: u16,
    lane: Lane,
    along: &Along<C, K>,
) -> anyhow::Result<()> {
    let Lane {
        to,
        length,
        risk,
        crossing,
    } = lane;
    let cost = &along.cost;
    let class = &along.class;
    writeln!(
        out,
        "lane {number} to {to} crossing {crossing} length {length} risk {risk} cost {cost} class {class}"
    )?;
    Ok(())
}

// Adds a line for each lane, up to the first that cannot be gone: the point that is reached.
fn add_lanes<M: Map, C: Class + Display, K: Cost + Display>(
    out: &mut String,
    map: &M,
    request: &Request,
) -> anyhow::Result<u16> {
    let mut along: Along<C, K> = Along {
        end: request.from,
        class: C::unit(),
        cost: K::zero(),
    };
    for number in request.lanes.iter() {
        let Some(lane) = map.lane(along.end, *number) else {
            return Ok(along.end);
        };
        let Ok(next) = pricing::go_on(map, along, *number) else {
            return Ok(along.end);
        };
        add_lane(out, *number, lane, &next)?;
        along = next;
    }
    Ok(along.end)
}

// Adds the last line: what the run comes to.
fn add_sum<C: Display, K: Display>(
    out: &mut String,
    pricing: &Result<Along<C, K>, Unpriced>,
    reached: u16,
    request: &Request,
) -> anyhow::Result<()> {
    match pricing {
        Ok(along) => {
            let end = along.end;
            let class = &along.class;
            let cost = &along.cost;
            writeln!(out, "end {end} class {class} cost {cost}")?;
        }
        Err(Unpriced::NoPoint) => writeln!(out, "{reached} is no point of the map")?,
        Err(Unpriced::LaneMissing(place)) => {
            let number = request.lanes.get(*place).copied().unwrap_or(0);
            writeln!(out, "lane {number} is missing at point {reached}")?;
        }
        Err(unheld) => writeln!(out, "{unheld}")?,
    }
    Ok(())
}

// The lines of a run, in these kinds of classes and costs.
fn lines<M: Map, C: Class + Display, K: Cost + Display>(
    heap: Global,
    map: &M,
    request: &Request,
) -> anyhow::Result<String> {
    let mut out = String::new(heap);
    let whole: Result<Along<C, K>, Unpriced> = pricing::price(map, request.from, &request.lanes);
    let reached = add_lanes::<M, C, K>(&mut out, map, request)?;
    add_sum(&mut out, &whole, reached, request)?;
    Ok(out)
}

// The lines of a run on a map, in the kinds asked for.
fn priced<M: Map>(heap: Global, map: &M, request: &Request) -> anyhow::Result<String> {
    // the kinds are types, which only a match can pick by values
    match (request.classes, request.costs) {
        (Classes::Words, Costs::Length) => lines::<M, Word, Length>(heap, map, request),
        (Classes::Words, Costs::Slope) => lines::<M, Word, Slope>(heap, map, request),
        (Classes::Sides, Costs::Length) => lines::<M, Sides, Length>(heap, map, request),
        (Classes::Sides, Costs::Slope) => lines::<M, Sides, Slope>(heap, map, request),
    }
}

// The lines of a run on a plan of either kind.
fn answer(heap: Global, held: &Held, request: &Request) -> anyhow::Result<String> {
    let memory = held.memory.as_slice();
    match held.plan {
        Plan::Grid(grid) => priced(heap, &GridMap { grid, memory }, request),
        Plan::Road(road) => priced(heap, &RoadMap { road, memory }, request),
    }
}

pub(crate) fn run(rt: &HostRuntime, words: &[String]) -> anyhow::Result<()> {
    let [plan, from, rest @ ..] = words else {
        return Err(anyhow!("price takes a plan and a point; kimdolur --help shows it"));
    };
    let request = read_request(rt.alloc(), from.as_str(), rest)?;
    let held = plan_file::read(rt, plan.as_str())?;
    let out = answer(rt.alloc(), &held, &request)?;
    Ok(rt.print(out)?)
}
