// The run of a pair: the points through which the links of the chart lead from it back to the reel.
ghost use Rattle.std.specs.Prelude.{◌≡◌, ◌<◌, length, Ok};
ghost use Rattle.charts.specs.Laid.{LaysTruly};
ghost use Rattle.charts.specs.Trails.{is_home, next_of, Leads, Counts, Reversed, RunsIn, WritesRun};

use crate::asking::asked_at;
use crate::chart::{Charted, Pair};
use crate::finding::{first_place, is_pair};
use kinds::class::Class;
use kinds::cost::Cost;
use kinds::refusal::Refusal;

// The pairs that count, and the reel to which their links lead.
#[derive(Clone, Copy)]
struct Links<'a, C, K> {
    pairs: &'a [Pair<C, K>],
    reel: u16,
}

impl<C: Class, K: Cost> Links<'_, C, K> {
    // Whether a pair is the reel with the unit.
    fn is_home(&self, pair: &Pair<C, K>) -> bool
        ensures { result ≡ is_home C.Class self.now.reel pair.now }
    {
        is_pair(pair, self.reel, &C::unit())
    }

    // The place to which a pair leads, none from home; refused if it leads nowhere.
    fn next_of(&self, pair: &Pair<C, K>) -> Result<Option<u16>, Refusal>
        ensures { result ≡ next_of C.Class self.now.reel (length self.now.pairs.now) pair.now }
    {
        if self.is_home(pair) {
            return Ok(None);
        }
        match pair.link {
            Some(before) if usize::from(before) < self.pairs.len() => Ok(Some(before)),
            _ => Err(Refusal::NoRun),
        }
    }

    // How many points lead from a place home; refused if none do.
    fn count_points(&self, first: usize) -> Result<usize, Refusal>
        requires { first < length self.now.pairs.now }
        ensures { Counts C.Class self.now.reel self.now.pairs.now first result }
    {
        let mut place = first;
        // counted from 0: over `1..=len` the proof found nothing at the loop's end
        for count in 0..self.pairs.len() {
            match self.next_of(&self.pairs[place])? {
                Some(before) => place = usize::from(before),
                None => return Ok(count + 1),
            }
        }
        Err(Refusal::NoRun)
    }

    // Writes the points that lead from a place home, in their order.
    fn write_back(&self, first: usize, buffer: &mut [u16])
        requires { Counts C.Class self.now.reel self.now.pairs.now first (Ok (length buffer.old)) }
        ensures { Leads C.Class self.now.reel self.now.pairs.now first buffer.new }
    {
        let mut place = first;
        for slot in buffer.iter_mut() {
            let pair = self.pairs[place];
            *slot = pair.point;
            place = pair.link.map_or(place, usize::from);
        }
    }

    // Writes the points that lead from a place home, the last of them first.
    fn write_points(&self, first: usize, buffer: &mut [u16])
        requires { Counts C.Class self.now.reel self.now.pairs.now first (Ok (length buffer.old)) }
        ensures { Reversed C.Class self.now.reel self.now.pairs.now first buffer.new }
    {
        self.write_back(first, buffer);
        buffer.reverse();
    }

    // Writes the run of a pair, if there is one and the buffer has room for it.
    fn write_in(&self, point: u16, class: &C, buffer: &mut [u16]) -> Result<usize, Refusal>
        ensures { RunsIn C.Class self.now.reel self.now.pairs.now point class.now buffer.old buffer.new result }
    {
        let first = first_place(self.pairs, point, class).ok_or(Refusal::NoRun)?;
        let count = self.count_points(first)?;
        if buffer.len() < count {
            return Err(Refusal::TooShort);
        }
        self.write_points(first, &mut buffer[..count]);
        Ok(count)
    }
}

impl<C: Class, K: Cost> Charted<'_, C, K> {
    // Writes the points of the run of a pair, the reel first, and says how many they are.
    // Refused if the chart cannot be asked at the point, if it has no run of the pair, or if the buffer is too short; then nothing is written.
    pub fn write_run(&self, point: u16, class: &C, buffer: &mut [u16]) -> Result<usize, Refusal>
        ensures answer { WritesRun C.Class self.now.head self.now.places.now point class.now buffer.old buffer.new result }
        ensures exact { LaysTruly C.Class K.Cost self.now.head self.now.places.now point class.now buffer.new result }
    {
        self.write_asked(point, class, buffer)
    }

    // Writes the run of a pair among those that count, if the chart may be asked at the point.
    // Apart from `write_run`: written there, the check did not find the proof of `exact`.
    fn write_asked(&self, point: u16, class: &C, buffer: &mut [u16]) -> Result<usize, Refusal>
        ensures { WritesRun C.Class self.now.head self.now.places.now point class.now buffer.old buffer.new result }
    {
        let head = asked_at(&self.head, self.places.len(), point)?;
        let links = Links {
            pairs: &self.places[..usize::from(head.pairs)],
            reel: head.reel,
        };
        links.write_in(point, class, buffer)
    }
}
