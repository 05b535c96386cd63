// The list at a point: the classes in which a cable can lie there, each with its cost, cheapest first.
ghost use Rattle.std.specs.Prelude.{◌≡◌, length, filter};
ghost use Rattle.charts.specs.Ranks.{by_cost};
ghost use Rattle.charts.specs.Listed.{ListsTruly};
ghost use Rattle.charts.specs.Listing.{is_at, priced, priced_at, ListsIn, ListsAt};

use crate::asking::asked_at;
use crate::chart::{Charted, Pair, Priced};
use kinds::class::Class;
use kinds::cost::Cost;
use kinds::refusal::Refusal;
use std::cmp::Ordering;
use tables::order::Ranked;
use tables::queue::sort;

// The cheaper comes first, and of equal costs the class that is first in the order of classes.
// Written by hand and not derived: costs and classes have no `Ord`, and equal classes may be unequal values.
impl<C: Class, K: Cost> Ranked for Priced<C, K> {
    ghost order = { by_cost C.Class K.Cost };

    fn compare(&self, other: &Priced<C, K>) -> Ordering {
        self.cost
            .compare(&other.cost)
            .then(self.class.compare(&other.class))
    }
}

// Whether a pair is at the point.
fn is_at<C: Class, K: Cost>(pair: &Pair<C, K>, point: u16) -> bool
    ensures { result ≡ is_at point pair.now }
{
    pair.point == point
}

// The class of a pair, with its cost. A function and no `From`, which could not say by its name what is left out.
fn price_of<C: Class, K: Cost>(pair: &Pair<C, K>) -> Priced<C, K>
    ensures { result ≡ priced pair.now }
{
    Priced {
        class: pair.class,
        cost: pair.cost,
    }
}

// How many pairs are at the point. The pairs and a point are two operands; a chart's pairs are one value, in `Charted`.
fn count_at<C: Class, K: Cost>(pairs: &[Pair<C, K>], point: u16) -> usize
    ensures { result ≡ length (filter (is_at point) pairs.now) }
{
    pairs.iter().filter(|pair| is_at(pair, point)).count()
}

// Writes the pairs at the point, in their order, to a list that has a place for each.
fn write_at<C: Class, K: Cost>(pairs: &[Pair<C, K>], point: u16, list: &mut [Priced<C, K>])
    requires { length list.old ≡ length (priced_at point pairs.now) }
    ensures { list.new ≡ priced_at point pairs.now }
{
    // asked for the next by hand: of a zip over `iter_mut` a proof knows the length alone
    let mut rest = pairs.iter();
    for item in list.iter_mut() {
        if let Some(pair) = rest.find(|pair| is_at(pair, point)) {
            *item = price_of(pair);
        }
    }
}

// Lists the pairs at the point, if the list has room for them.
fn list_in<C: Class, K: Cost>(
    pairs: &[Pair<C, K>],
    point: u16,
    list: &mut [Priced<C, K>],
) -> Result<usize, Refusal>
    ensures { ListsIn C.Class K.Cost pairs.now point list.old list.new result }
{
    let count = count_at(pairs, point);
    if list.len() < count {
        return Err(Refusal::TooShort);
    }
    let listed = &mut list[..count];
    write_at(pairs, point, listed);
    sort(listed);
    Ok(count)
}

impl<C: Class, K: Cost> Charted<'_, C, K> {
    // Lists the classes in which a cable can lie at the point, and says how many they are.
    // Refused if the chart cannot be asked there, or if the list is too short; then nothing is written.
    pub fn list(&self, point: u16, list: &mut [Priced<C, K>]) -> Result<usize, Refusal>
        ensures answer { ListsAt C.Class K.Cost self.now.head self.now.places.now point list.old list.new result }
        ensures exact { ListsTruly C.Class K.Cost self.now.head self.now.places.now point list.new result }
    {
        self.list_asked(point, list)
    }

    // Lists the counted pairs at the point, if the chart may be asked there.
    // Apart from `list`: written there, the check did not find the proof of `exact`.
    fn list_asked(&self, point: u16, list: &mut [Priced<C, K>]) -> Result<usize, Refusal>
        ensures { ListsAt C.Class K.Cost self.now.head self.now.places.now point list.old list.new result }
    {
        let head = asked_at(&self.head, self.places.len(), point)?;
        list_in(&self.places[..usize::from(head.pairs)], point, list)
    }
}
