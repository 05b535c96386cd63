// A chart: its places, and the head that says what was charted.

// A pair of the chart: a point together with a class, the cost of its cheapest run,
// and the place of the pair before it on one such run; the reel with the unit has none before it.
#[derive(Clone, Copy)]
pub struct Pair<C, K> {
    pub point: u16,
    pub class: C,
    pub cost: K,
    pub link: Option<u16>,
}

// The head of a chart: the first `pairs` of its places count. A chart with an aim covers the aim alone,
// one without covers every point below `points`.
#[derive(Clone, Copy, PartialEq, Eq, Debug)]
pub struct Chart {
    pub reel: u16,
    pub aim: Option<u16>,
    pub pairs: u16,
    pub points: u16,
}

// A chart as it is asked: its head, if one stands, and all its places. A point, and the list or buffer that is filled for it,
// come with each call. The places are lent: there is no heap.
#[derive(Clone, Copy)]
pub struct Charted<'a, C, K> {
    pub head: Option<Chart>,
    pub places: &'a [Pair<C, K>],
}

// A class of the list at a point, and the cost of its cheapest run.
#[derive(Clone, Copy)]
pub struct Priced<C, K> {
    pub class: C,
    pub cost: K,
}
