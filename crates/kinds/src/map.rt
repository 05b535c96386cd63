// What a map gives: points, the lanes between them, and estimates of what remains to an aim.
ghost use Rattle.std.specs.Prelude.{◌≡◌, is_some};
ghost use Rattle.kinds.specs.Maps.{Site, LawfulLanes, LawfulEstimates, Next};

use crate::lane::Lane;

pub trait Map {
    // the points, lanes and estimates that the map means
    ghost site: { Self → Site };

    // How many points there are; they are numbered from 0.
    fn points(&self) -> u16
        ensures { result ≡ (site self.now).points };

    // From this number on, no number names a lane.
    fn limit(&self) -> u16
        ensures { result ≡ (site self.now).limit };

    // The lane that a number names at a point.
    fn lane(&self, point: u16, number: u16) -> Option<Lane>
        ensures { result ≡ (site self.now).lane point number };

    // At most the length of any run from the point to the aim.
    fn estimate(&self, point: u16, aim: u16) -> u32
        ensures { result ≡ (site self.now).estimate point aim };

    // Whether a number names a lane at a point.
    fn has_lane(&self, point: u16, number: u16) -> bool
        ensures { result ≡ is_some ((site self.now).lane point number) }
    {
        self.lane(point, number).is_some()
    }

    // The first number from `from` on that names a lane at the point.
    fn next_lane(&self, point: u16, from: u16) -> Option<u16>
        ensures { Next (site self.now) point from result }
    {
        (from..self.limit()).find(|number| self.has_lane(point, *number))
    }

    ghost lanes: { (m : Self) → LawfulLanes (site m) };

    ghost estimates: { (m : Self) → LawfulEstimates (site m) };
}
