// `kimdolur show`: what a plan holds.
use crate::plan_file;
use crate::plan_file::Held;
use kinds::lane::Lane;
use kinds::map::Map;
use plans::grid::BLOCKED;
use plans::plan::{Grid, Plan, Post, Road};
use plans::road::RoadMap;
use std::alloc::Global;
use std::fmt;
use std::iter::Take;
use std::slice::Iter;

// A grid as it is drawn, north on top.
#[derive(Clone, Copy)]
struct Drawing<'a> {
    grid: Grid,
    memory: &'a [u8],
}

impl Drawing<'_> {
    // Whether a byte of the memory is other than 0.
    fn is_set(&self, at: usize) -> bool {
        self.memory.get(at).is_some_and(|byte| *byte != 0)
    }

    // How a point is drawn, with a blank before it but in the first column. A text and no character: the formatter takes a text as it is.
    fn mark(&self, column: u8, row: u8) -> &'static str {
        let point = usize::from(row) * usize::from(self.grid.width) + usize::from(column);
        let (first, next) = if self.is_set(BLOCKED + point) {
            ("#", " #")
        } else if self.is_set(point) {
            ("+", " +")
        } else {
            (".", " .")
        };
        if column == 0 { first } else { next }
    }

    // The posts that count. This and the place of a point are written again here, as plans keeps its own to itself.
    fn posts(&self) -> Take<Iter<'_, Post>> {
        self.grid.posts.iter().take(usize::from(self.grid.count))
    }

    // Whether a post stands in the square with this south-west corner. A for: `any` takes three times as long.
    fn has_post(&self, column: u8, row: u8) -> bool {
        for post in self.posts() {
            if post.column == column && post.row == row {
                return true;
            }
        }
        false
    }

    // How the square is drawn that has this point in its south-west corner, with the blank behind it.
    fn square(&self, column: u8, row: u8) -> &'static str {
        if self.has_post(column, row) {
            "o "
        } else {
            "  "
        }
    }

    // Writes one row of points.
    fn write_points<W: fmt::Write>(&self, f: &mut fmt::Formatter<W>, row: u8) -> fmt::Result {
        for column in 0..self.grid.width {
            f.write_str(self.mark(column, row))?;
        }
        f.write_str("\n")
    }

    // Writes the squares north of one row of points.
    fn write_squares<W: fmt::Write>(&self, f: &mut fmt::Formatter<W>, row: u8) -> fmt::Result {
        for column in 0..self.grid.width {
            f.write_str(if column == 0 {
                " "
            } else {
                self.square(column - 1, row)
            })?;
        }
        f.write_str("\n")
    }
}

impl fmt::Display for Drawing<'_> {
    fn fmt<W: fmt::Write>(&self, f: &mut fmt::Formatter<W>) -> fmt::Result {
        for row in (0..self.grid.height).rev() {
            self.write_points(f, row)?;
            if row > 0 {
                self.write_squares(f, row - 1)?;
            }
        }
        Ok(())
    }
}

// What a grid holds: its sizes, a line for each post, by the number of its ray, and its drawing.
fn show_grid(heap: Global, grid: Grid, memory: &[u8]) -> anyhow::Result<String> {
    let mut out = String::new(heap);
    let width = grid.width;
    let height = grid.height;
    let spacing = grid.spacing;
    let count = grid.count;
    let posts = if count == 1 { "post" } else { "posts" };
    writeln!(
        out,
        "grid {width} by {height}, spacing {spacing} cm, {count} {posts}"
    )?;
    let drawing = Drawing { grid, memory };
    for (ray, post) in (1..8u8).zip(drawing.posts()) {
        let column = post.column;
        let row = post.row;
        writeln!(out, "ray {ray}: post at column {column}, row {row}")?;
    }
    write!(out, "{drawing}")?;
    Ok(out)
}

// The lane with this number, and the point that it begins at.
fn find_lane<M: Map>(map: &M, number: u16) -> Option<(u16, Lane)> {
    (0..map.points()).find_map(|point| map.lane(point, number).map(|lane| (point, lane)))
}

// Adds the line of a lane, if there is one with the number.
fn add_lane<M: Map>(out: &mut String, map: &M, number: u16) -> anyhow::Result<()> {
    let Some((from, lane)) = find_lane(map, number) else {
        return Ok(());
    };
    let Lane {
        to,
        length,
        risk,
        crossing,
    } = lane;
    writeln!(
        out,
        "lane {number}: {from} to {to} length {length} risk {risk} crossing {crossing}"
    )?;
    Ok(())
}

// What a roadmap holds. A lane has an even number; the next is the same lane backwards.
fn show_road(heap: Global, road: Road, memory: &[u8]) -> anyhow::Result<String> {
    let mut out = String::new(heap);
    let points = road.points;
    let lanes = road.lanes;
    writeln!(out, "roadmap {points} points, {lanes} lanes")?;
    let map = RoadMap { road, memory };
    for lane in 0..lanes {
        add_lane(&mut out, &map, lane.saturating_mul(2))?;
    }
    Ok(out)
}

// What a plan of either kind holds.
fn answer(heap: Global, held: &Held) -> anyhow::Result<String> {
    let memory = held.memory.as_slice();
    match held.plan {
        Plan::Grid(grid) => show_grid(heap, grid, memory),
        Plan::Road(road) => show_road(heap, road, memory),
    }
}

pub(crate) fn run(rt: &HostRuntime, path: &str) -> anyhow::Result<()> {
    let held = plan_file::read(rt, path)?;
    let out = answer(rt.alloc(), &held)?;
    Ok(rt.print(out)?)
}
