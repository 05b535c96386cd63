// A map with what charting on it is asked for: what is wrong with that, the cost of a pair with the tail at its point,
// whether that is within the cable, and the head of the chart.
ghost use Rattle.std.specs.Prelude.{◌≡◌, ◌<◌, Decides};
ghost use Rattle.std.specs.declared.cmp.Ordering.TheVariants.{Less};
ghost use Rattle.kinds.specs.Orders.{Under};
ghost use Rattle.kinds.specs.Reaches.{tail, Within};
ghost use Rattle.steps.specs.Ends.{Pointless, Judged, head_of};

use crate::asked::Asked;
use charts::chart::Chart;
use kinds::cost::Cost;
use kinds::map::Map;
use kinds::refusal::Refusal;

// The largest cable number.
const LONGEST_CABLE: u32 = 1_000_000;

#[derive(Drop)]
pub struct Task<'a, M> {
    pub map: &'a M,
    pub asked: Asked,
}

impl<M: Map> Task<'_, M> {
    // Whether the reel or the aim is no point of the map.
    fn is_pointless(&self) -> bool
        ensures { Decides result (Pointless (M.Map.site self.now.map.now) self.now.asked) }
    {
        let points = self.map.points();
        self.asked.reel >= points || self.asked.aim.is_some_and(|aim| aim >= points)
    }

    // Refused if something is wrong with what is asked, before any search.
    pub fn judge(&self) -> Result<(), Refusal>
        ensures { Judged (M.Map.site self.now.map.now) self.now.asked result }
    {
        if self.is_pointless() {
            return Err(Refusal::NoSuchPoint);
        }
        if is_too_long(self.asked.cable) {
            return Err(Refusal::CableTooLong);
        }
        Ok(())
    }

    // The head of the chart, if one stands.
    pub fn head_of(&self, answer: Result<u16, Refusal>) -> Option<Chart>
        ensures { result ≡ head_of (M.Map.site self.now.map.now) self.now.asked answer }
    {
        let pairs = answer.ok()?;
        Some(Chart {
            reel: self.asked.reel,
            aim: self.asked.aim,
            pairs,
            points: self.map.points(),
        })
    }

    // The cost of the estimate to the aim; zero without an aim.
    fn tail_at<K: Cost>(&self, point: u16) -> K
        ensures { result ≡ tail (M.Map.site self.now.map.now) K.Cost.costs self.now.asked.aim point }
    {
        self.asked.aim.map_or(
            K::zero(),
            |aim| K::of_lane(self.map.estimate(point, aim), 0),
        )
    }

    // The cost with the tail at the point.
    pub fn bound_at<K: Cost>(&self, point: u16, cost: K) -> K
        ensures { result ≡ K.Cost.costs.plus cost (tail (M.Map.site self.now.map.now) K.Cost.costs self.now.asked.aim point) }
    {
        cost.plus(self.tail_at(point))
    }

    // Whether a run to the point at this cost, with the tail there, is within the cable.
    pub fn is_within<K: Cost>(&self, point: u16, cost: K) -> bool
        ensures { Decides result (Within (M.Map.site self.now.map.now) K.Cost.costs self.now.asked.aim self.now.asked.cable point cost) }
    {
        let bound: K = self.bound_at(point, cost);
        is_under(&bound, &K::limit(self.asked.cable))
    }
}

// Whether the cable number is too large. Not one with the test of a plan's length: they would share only `>`.
fn is_too_long(cable: u32) -> bool
    ensures { Decides result (1000000 < cable) }
{
    cable > LONGEST_CABLE
}

// Whether one cost is not above another.
fn is_under<K: Cost>(cost: &K, limit: &K) -> bool
    ensures { Decides result (Under K.Cost.costs.order cost.now limit.now) }
{
    cost.compare(limit).is_le()
}

// Whether one cost is below another.
pub fn is_cheaper<K: Cost>(cost: &K, other: &K) -> bool
    ensures { Decides result (K.Cost.costs.order.cmp cost.now other.now ≡ Less) }
{
    cost.compare(other).is_lt()
}
