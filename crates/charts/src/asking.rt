// What may be asked of a chart: whether one stands, and whether it covers a point.
ghost use Rattle.std.specs.Prelude.{◌≡◌};
ghost use Rattle.charts.specs.Asking.{covering, standing_of, whole_of, asked_at};

use crate::chart::Chart;
use kinds::refusal::Refusal;

// Whether a chart covers a point: without an aim it covers all, else the aim alone.
fn covers(aim: Option<u16>, point: u16) -> bool
    ensures { result ≡ covering aim point }
{
    aim.is_none_or(|only| only == point)
}

// The head of the chart; refused if no chart stands, or if it counts more pairs than there are places.
// By the number of places, which is all that is asked of them.
pub fn standing(chart: &Option<Chart>, places: usize) -> Result<Chart, Refusal>
    ensures { result ≡ standing_of chart.now places }
{
    let head = chart.ok_or(Refusal::NoChart)?;
    if usize::from(head.pairs) > places {
        return Err(Refusal::NoChart);
    }
    Ok(head)
}

// The head of a chart that covers every point; then refused if the chart is aimed.
pub fn whole(chart: &Option<Chart>, places: usize) -> Result<Chart, Refusal>
    ensures { result ≡ whole_of chart.now places }
{
    let head = standing(chart, places)?;
    if head.aim.is_some() {
        return Err(Refusal::NotCovered);
    }
    Ok(head)
}

// The head of a chart that covers the point; then refused if there is no such point, or if it is not covered.
pub fn asked_at(chart: &Option<Chart>, places: usize, point: u16) -> Result<Chart, Refusal>
    ensures { result ≡ asked_at chart.now places point }
{
    let head = standing(chart, places)?;
    if point >= head.points {
        return Err(Refusal::NoSuchPoint);
    }
    if !covers(head.aim, point) {
        return Err(Refusal::NotCovered);
    }
    Ok(head)
}
