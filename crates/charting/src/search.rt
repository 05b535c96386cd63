// The search, pair by pair: the open pair that waits first is settled, and its lanes are followed.
ghost use Rattle.std.specs.Prelude.{◌≡◌, ℕ, ◌+◌, ◌<◌, length, replicate, MatchBool, MatchResult};
ghost use Rattle.tables.specs.Queues.{waiting};
ghost use Rattle.charting.specs.Charts.{Fits};
ghost use Rattle.charting.specs.Searches.{Sized, Complete, Lent, Rests, AtHand, ComesBy, Meeting, Ended, Refused, TooMany};

use crate::memory::Search;
use charts::chart::Pair;
use kinds::class::Class;
use kinds::cost::Cost;
use kinds::map::Map;
use kinds::refusal::Refusal;
use steps::judging::answered;
use steps::leading::{cost_on, following, has_room, led};
use steps::open::Open;
use steps::task::{Task, is_cheaper};
use tables::index::clear;
use tables::queue::Queue;

impl<M: Map, C: Class, K: Cost> Search<'_, '_, '_, M, C, K> {
    // Finds the reel with the unit, if it is within the cable.
    fn begin(&mut self)
        requires here { self.old.task.now.asked.reel < (M.Map.site self.old.task.now.map.now).points }
        requires sized { Sized self.old.places.now self.old.queue.now self.old.slots.now }
        requires some { 0 < length self.old.places.now }
        requires none { (self.old.found ≡ 0) × (self.old.settled ≡ 0) }
        requires idle { length (waiting self.old.queue.now) ≡ 0 }
        requires vacant { self.old.slots.now ≡ replicate (length self.old.slots.now) 0 }
        ensures lent { Lent self.old self.new }
        ensures begun { Rests M.Map.site C.Class K.Cost self.new }
    {
        let reel = self.task.asked.reel;
        let zero = K::zero();
        if !self.task.is_within(reel, zero) {
            return;
        }
        let pair = Pair {
            point: reel,
            class: C::unit(),
            cost: zero,
            link: None,
        };
        let bound = self.task.bound_at(reel, zero);
        self.add(pair, bound);
    }

    // Takes up the open pair that waits first: it comes to the place after the settled ones. False: none is open.
    fn take_up(&mut self) -> bool
        requires { Rests M.Map.site C.Class K.Cost self.old }
        ensures lent { Lent self.old self.new }
        ensures settled { self.new.settled ≡ self.old.settled }
        ensures taken { MatchBool result (AtHand M.Map.site C.Class K.Cost self.new 0) (Ended M.Map.site C.Class K.Cost self.new) }
    {
        let Some(open) = self.queue.pop() else {
            return false;
        };
        let slot = usize::from(open.slot);
        let place = self.slots[slot] - 1;
        self.exchange(place, slot, self.settled);
        true
    }

    // Enters a pair that a lane leads to: in a new place, or in its old one if it is cheaper now.
    // Refused: no place is left.
    fn meet(&mut self, pair: Pair<C, K>) -> Result<(), Refusal>
        requires { Meeting M.Map.site C.Class K.Cost self.old pair }
        ensures lent { Lent self.old self.new }
        ensures settled { self.new.settled ≡ self.old.settled }
        ensures met { MatchResult result (λ _. (i : ℕ) → ComesBy M.Map.site C.Class K.Cost self.old i pair → AtHand M.Map.site C.Class K.Cost self.new (i + 1)) (Refused M.Map.site C.Class K.Cost self.old) }
    {
        let bound = self.task.bound_at(pair.point, pair.cost);
        match self.look_up(pair.point, pair.class) {
            Some(at) => {
                let old = self.places[usize::from(at.place)];
                if is_cheaper(&pair.cost, &old.cost) {
                    // as: it fits, since there are no more than 8,192 slots
                    self.lower(at.place, at.slot as u16, pair, bound);
                }
                Ok(())
            }
            None if has_room(self.found, self.places.len()) => {
                self.add(pair, bound);
                Ok(())
            }
            None => Err(Refusal::ReachTooLarge),
        }
    }

    // Follows the lane with this number from the pair at hand.
    // Refused: the reach has more pairs than places, or a class that is not held.
    fn follow(&mut self, number: u16) -> Result<(), Refusal>
        requires { AtHand M.Map.site C.Class K.Cost self.old number }
        ensures lent { Lent self.old self.new }
        ensures settled { self.new.settled ≡ self.old.settled }
        ensures followed { MatchResult result (λ _. AtHand M.Map.site C.Class K.Cost self.new (number + 1)) (Refused M.Map.site C.Class K.Cost self.old) }
    {
        let from = self.places[usize::from(self.settled)];
        let Some(lane) = self.task.map.lane(from.point, number) else {
            return Ok(());
        };
        let cost = cost_on(&from, lane);
        if !self.task.is_within(lane.to, cost) {
            return Ok(());
        }
        let pair = answered(led(&from, lane, self.settled, cost))?;
        self.meet(pair)
    }

    // Follows all lanes from the pair at hand, which is settled then. Refused as `follow`.
    fn expand(&mut self) -> Result<(), Refusal>
        requires { AtHand M.Map.site C.Class K.Cost self.old 0 }
        ensures lent { Lent self.old self.new }
        ensures expanded { MatchResult result (λ _. Rests M.Map.site C.Class K.Cost self.new × (self.new.settled ≡ self.old.settled + 1)) (Refused M.Map.site C.Class K.Cost self.old) }
    {
        // no `for`: `next_lane` is the map's own call, which a map may answer faster than number by number
        let mut from = 0;
        while let Some(number) = self
            .task
            .map
            .next_lane(self.places[usize::from(self.settled)].point, from)
        {
            self.follow(number)?;
            from = following(number);
        }
        self.settled += 1;
        Ok(())
    }

    // Settles open pairs until none is left. Refused as `follow`.
    fn finish(&mut self) -> Result<(), Refusal>
        requires { Rests M.Map.site C.Class K.Cost self.old }
        ensures lent { Lent self.old self.new }
        ensures finished { MatchResult result (λ _. Ended M.Map.site C.Class K.Cost self.new) (Refused M.Map.site C.Class K.Cost self.old) }
    {
        while self.take_up() {
            self.expand()?;
        }
        Ok(())
    }
}

// Searches the whole reach with an empty queue and vacant slots. (Within `search_reach`, which makes the queue by a call, or
// without the lifetime, it gets no proof of what the places hold in the end.)
fn search_in<'a, M: Map, C: Class, K: Cost>(
    task: &'a Task<M>,
    places: &'a mut [Pair<C, K>],
    queue: &'a mut Queue<Open<K>>,
    slots: &'a mut [u16],
) -> Result<u16, Refusal>
    requires here { task.now.asked.reel < (M.Map.site task.now.map.now).points }
    requires sized { Sized places.old queue.old slots.old }
    requires some { 0 < length places.old }
    requires idle { length (waiting queue.old) ≡ 0 }
    requires vacant { slots.old ≡ replicate (length slots.old) 0 }
    ensures { MatchResult result (Complete (M.Map.site task.now.map.now) C.Class K.Cost task.now.asked places.new) (TooMany (M.Map.site task.now.map.now) C.Class K.Cost task.now.asked (length places.old)) }
{
    let mut search = Search {
        task,
        places,
        queue,
        slots,
        found: 0,
        settled: 0,
    };
    search.begin();
    search.finish()?;
    Ok(search.found)
}

// Searches the whole reach: how many pairs it has, which stand in the first places.
// Refused: it has more pairs than places, or a class that is not held.
pub(crate) fn search_reach<M: Map, C: Class, K: Cost>(
    task: &Task<M>,
    places: &mut [Pair<C, K>],
    queue: &mut [Open<K>],
    slots: &mut [u16],
) -> Result<u16, Refusal>
    requires here { task.now.asked.reel < (M.Map.site task.now.map.now).points }
    requires fits { Fits places.old queue.old slots.old }
    ensures { MatchResult result (Complete (M.Map.site task.now.map.now) C.Class K.Cost task.now.asked places.new) (TooMany (M.Map.site task.now.map.now) C.Class K.Cost task.now.asked (length places.old)) }
{
    clear(slots);
    search_in(task, places, &mut Queue::empty(queue), slots)
}
