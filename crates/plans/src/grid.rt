// A grid as a map: a record and the memory of its points.
ghost use Rattle.std.specs.Prelude.{◌≡◌, ◌/◌, ◌%◌, ◌<◌, not, ◌&&◌, take};
ghost use Rattle.plans.specs.Grids.{sized, points_of, Inside, place, over, eastward, crossed, beside, lane_to, lane_at, grid_site, terrain_of};
ghost use Rattle.plans.specs.GridsLemmas.{lawful_lanes, lawful_estimates};

use crate::memory::Memory;
use crate::plan::{Grid, Post};
use crate::ray::forwards;
use kinds::crossing::Crossing;
use kinds::lane::Lane;
use kinds::map::Map;

// Where the bytes that say whether a point is blocked begin in a grid's memory.
pub const BLOCKED: usize = 4_096;

// Byte p of the memory is the risk of the point p, and byte 4096 + p is not 0 if it is blocked.
// A point whose bytes lie past the end of the memory is blocked. How the bytes lie is fixed by the format.
#[derive(Clone, Copy)]
pub struct GridMap<B> {
    pub grid: Grid,
    pub memory: B,
}

// Where a point lies: column 0 is west, row 0 south.
#[derive(Clone, Copy)]
pub(crate) struct Spot {
    pub(crate) column: u8,
    pub(crate) row: u8,
}

// Whether the lane from the spot to its east crosses the ray of the post.
// The ray goes north from the middle of the square north-east of the post's point.
fn is_over(post: Post, spot: Spot) -> bool
    ensures { result ≡ over post spot.column spot.row }
{
    post.column == spot.column && post.row < spot.row
}

impl Grid {
    // Whether the sizes and the spacing are in range.
    pub(crate) fn is_sized(&self) -> bool
        ensures { result ≡ sized self.now.width self.now.height self.now.spacing }
    {
        (2..=64).contains(&self.width)
            && (2..=64).contains(&self.height)
            && (1..=1000).contains(&self.spacing)
    }

    // How many points it has; none if it is not sized.
    pub(crate) fn points(&self) -> u16
        ensures { result ≡ points_of self.now.width self.now.height self.now.spacing }
    {
        if self.is_sized() {
            u16::from(self.width) * u16::from(self.height)
        } else {
            0
        }
    }

    // The number of the point at the spot, counted row by row.
    pub(crate) fn point_at(&self, spot: Spot) -> u16
        ensures { result ≡ place self.now.width spot.column spot.row }
    {
        u16::from(spot.row) * u16::from(self.width) + u16::from(spot.column)
    }

    // Where the point lies.
    fn spot_of(&self, point: u16) -> Spot
        requires { point < points_of self.now.width self.now.height self.now.spacing }
        ensures column { result.column ≡ point % self.now.width }
        ensures row { result.row ≡ point / self.now.width }
        ensures inside { Inside self.now.width self.now.height result.column result.row }
    {
        let width = u16::from(self.width);
        Spot {
            column: (point % width) as u8,
            row: (point / width) as u8,
        }
    }

    // The posts that count.
    pub(crate) fn standing(&self) -> &[Post]
        ensures { result.now ≡ take self.now.count self.now.posts }
    {
        &self.posts[..usize::from(self.count.min(7))]
    }

    // What the lane from the spot to its east crosses: the first ray that it crosses, forwards.
    fn eastward(&self, spot: Spot) -> Crossing
        ensures { result ≡ eastward 1 (take self.now.count self.now.posts) spot.column spot.row }
    {
        let crossed = self.standing().iter().position(|post| is_over(*post, spot));
        // a match: that the place is below 7 is known here, and not in a closure
        match crossed {
            Some(place) => forwards(place as u8 + 1),
            None => Crossing::None,
        }
    }

    // What the lane between two neighbours crosses: a ray forwards to the east, or backwards to the west.
    fn crossed(&self, from: Spot, to: Spot) -> Crossing
        ensures { result ≡ crossed (take self.now.count self.now.posts) from.column from.row to.column to.row }
    {
        if from.column < to.column {
            self.eastward(from)
        } else if to.column < from.column {
            self.eastward(to).opposite()
        } else {
            Crossing::None
        }
    }

    // The neighbour of the spot in the grid: 0 east, 1 west, 2 north, 3 south.
    fn beside(&self, spot: Spot, number: u16) -> Option<Spot>
        requires { Inside self.now.width self.now.height spot.column spot.row }
        ensures { result ≡ beside self.now.width self.now.height spot.column spot.row number }
    {
        let Spot { column, row } = spot;
        let (column, row) = match number {
            0 if column + 1 < self.width => (column + 1, row),
            1 if column > 0 => (column - 1, row),
            2 if row + 1 < self.height => (column, row + 1),
            3 if row > 0 => (column, row - 1),
            _ => return None,
        };
        Some(Spot { column, row })
    }
}

impl<B: Memory> GridMap<B> {
    // Whether the point at the spot is blocked.
    fn is_blocked(&self, spot: Spot) -> bool
        ensures { result ≡ (terrain_of B.Memory.bytes self.now).blocked spot.column spot.row }
    {
        let at = BLOCKED + usize::from(self.grid.point_at(spot));
        at >= self.memory.size() || self.memory.byte(at) != 0
    }

    // Whether neither of two points is blocked.
    fn are_free(&self, a: Spot, b: Spot) -> bool
        ensures { result ≡ (not ((terrain_of B.Memory.bytes self.now).blocked a.column a.row) && not ((terrain_of B.Memory.bytes self.now).blocked b.column b.row)) }
    {
        !self.is_blocked(a) && !self.is_blocked(b)
    }

    // The risk of the point at the spot.
    fn risk_at(&self, spot: Spot) -> u8
        ensures { result ≡ (terrain_of B.Memory.bytes self.now).risk spot.column spot.row }
    {
        self.memory.byte(usize::from(self.grid.point_at(spot)))
    }

    // The lane between two neighbours.
    fn lane_to(&self, from: Spot, to: Spot) -> Lane
        ensures { result ≡ lane_to (terrain_of B.Memory.bytes self.now) from.column from.row to.column to.row (crossed (take self.now.grid.count self.now.grid.posts) from.column from.row to.column to.row) }
    {
        Lane {
            to: self.grid.point_at(to),
            length: self.grid.spacing,
            risk: self.risk_at(from).max(self.risk_at(to)),
            crossing: self.grid.crossed(from, to),
        }
    }

    // The lane from the spot to the neighbour with the number, if neither is blocked.
    fn lane_at(&self, spot: Spot, number: u16) -> Option<Lane>
        requires { Inside self.now.grid.width self.now.grid.height spot.column spot.row }
        ensures { result ≡ lane_at (terrain_of B.Memory.bytes self.now) spot.column spot.row number }
    {
        let next = self.grid.beside(spot, number)?;
        if self.are_free(spot, next) {
            Some(self.lane_to(spot, next))
        } else {
            None
        }
    }
}

impl<B: Memory> Map for GridMap<B> {
    ghost site = { λ m. grid_site (terrain_of B.Memory.bytes m) };

    ghost lanes = { λ m. lawful_lanes (terrain_of B.Memory.bytes m) };

    ghost estimates = { λ m. lawful_estimates (terrain_of B.Memory.bytes m) };

    fn points(&self) -> u16 {
        self.grid.points()
    }

    fn limit(&self) -> u16 {
        4
    }

    fn lane(&self, point: u16, number: u16) -> Option<Lane> {
        if point >= self.grid.points() {
            return None;
        }
        self.lane_at(self.grid.spot_of(point), number)
    }

    fn estimate(&self, point: u16, aim: u16) -> u32 {
        if point >= self.grid.points() || aim >= self.grid.points() {
            return 0;
        }
        let here = self.grid.spot_of(point);
        let there = self.grid.spot_of(aim);
        let steps = u32::from(here.column.abs_diff(there.column))
            + u32::from(here.row.abs_diff(there.row));
        steps * u32::from(self.grid.spacing)
    }
}
