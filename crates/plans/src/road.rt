// A roadmap as a map: a record and the memory of its lanes.
ghost use Rattle.std.specs.Prelude.{◌≡◌, ◌<◌, cond, Some, None, is_some};
ghost use Rattle.kinds.specs.Crossings.{other_way};
ghost use Rattle.plans.specs.Rays.{crossing_of};
ghost use Rattle.plans.specs.Roads.{few, sound, leg, two_at, link_at, net_of, road_site};
ghost use Rattle.plans.specs.RoadsLemmas.{lawful_lanes, lawful_estimates};

use crate::memory::Memory;
use crate::plan::Road;
use crate::ray::crossing_of;
use kinds::crossing::Crossing;
use kinds::lane::Lane;
use kinds::map::Map;

// The most points and lane commands that a roadmap may have.
pub(crate) const POINTS: u16 = 512;

pub(crate) const LANES: u16 = 1_024;

// The eight bytes of memory from 8 a on are the a-th lane command. One that is out of range names no lane.
#[derive(Clone, Copy)]
pub struct RoadMap<B> {
    pub road: Road,
    pub memory: B,
}

// What a lane command says: the points at its ends, its length, its risk and its crossing byte.
// The crossing stays a byte, since the memory may hold any, and one that stands for none makes it no lane.
#[derive(Clone, Copy)]
pub struct Link {
    pub first: u16,
    pub second: u16,
    pub length: u16,
    pub risk: u8,
    pub crossing: u8,
}

impl Link {
    // What it crosses, if it may stand on a map of this many points.
    fn crossing_on(self, points: u16) -> Option<Crossing>
        ensures { result ≡ cond (sound points self) (Some (crossing_of self.crossing)) None }
    {
        let stands = self.first < points
            && self.second < points
            && self.first != self.second
            && 1 <= self.length;
        if stands {
            crossing_of(self.crossing)
        } else {
            None
        }
    }

    // The lane from its first end to its second, crossing this.
    fn there(self, crossing: Crossing) -> Lane
        ensures { result ≡ record { to = self.second; length = self.length; risk = self.risk; crossing = crossing } }
    {
        Lane {
            to: self.second,
            length: self.length,
            risk: self.risk,
            crossing,
        }
    }

    // The lane from its second end back to its first, crossing this the other way.
    fn back(self, crossing: Crossing) -> Lane
        ensures { result ≡ record { to = self.first; length = self.length; risk = self.risk; crossing = other_way crossing } }
    {
        Lane {
            to: self.first,
            crossing: crossing.opposite(),
            ..self.there(crossing)
        }
    }

    // Whether the lane along it starts at the point: the lane onward for the number 0, else the lane back.
    fn starts_at(self, point: u16, number: u16) -> bool
        ensures { result ≡ is_some (leg self point number) }
    {
        if number == 0 {
            point == self.first
        } else {
            point == self.second
        }
    }

    // The lane along it that starts at the point: onward for the number 0, else back.
    fn leg(self, point: u16, number: u16, crossing: Crossing) -> Option<Lane>
        requires { crossing ≡ crossing_of self.crossing }
        ensures { result ≡ leg self point number }
    {
        if number == 0 {
            (point == self.first).then_some(self.there(crossing))
        } else {
            (point == self.second).then_some(self.back(crossing))
        }
    }
}

impl Road {
    // How many points it has; none if it says more than a roadmap may have.
    pub(crate) fn point_count(&self) -> u16
        ensures { result ≡ few self.now.points }
    {
        if self.points <= POINTS {
            self.points
        } else {
            0
        }
    }
}

impl<B: Memory> RoadMap<B> {
    // The number in two bytes, high byte first.
    fn number_at(&self, at: usize) -> u16
        requires { at < 1000000 }
        ensures { result ≡ two_at (B.Memory.bytes self.now.memory) at }
    {
        u16::from_be_bytes([self.memory.byte(at), self.memory.byte(at + 1)])
    }

    // The a-th lane command.
    fn link_at(&self, a: u16) -> Link
        ensures { result ≡ link_at (B.Memory.bytes self.now.memory) a }
    {
        let at = 8 * usize::from(a);
        Link {
            first: self.number_at(at),
            second: self.number_at(at + 2),
            length: self.number_at(at + 4),
            risk: self.memory.byte(at + 6),
            crossing: self.memory.byte(at + 7),
        }
    }
}

impl<B: Memory> Map for RoadMap<B> {
    ghost site = { λ m. road_site (net_of B.Memory.bytes m) };

    ghost lanes = { λ m. lawful_lanes (net_of B.Memory.bytes m) };

    ghost estimates = { λ m. lawful_estimates (net_of B.Memory.bytes m) };

    fn points(&self) -> u16 {
        self.road.point_count()
    }

    fn limit(&self) -> u16 {
        2 * LANES
    }

    fn lane(&self, point: u16, number: u16) -> Option<Lane> {
        if number >= 2 * LANES || number / 2 >= self.road.lanes {
            return None;
        }
        let link = self.link_at(number / 2);
        // asked first: a point is no end of most lanes, whose crossings need not be read
        if !link.starts_at(point, number % 2) {
            return None;
        }
        let crossing = link.crossing_on(self.road.point_count())?;
        link.leg(point, number % 2, crossing)
    }

    fn estimate(&self, _point: u16, _aim: u16) -> u32 {
        0
    }
}
