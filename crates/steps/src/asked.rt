// What charting is asked for.

// The point where the cable starts, the point that is aimed at, if any, and the cable number.
#[derive(Clone, Copy)]
pub struct Asked {
    pub reel: u16,
    pub aim: Option<u16>,
    pub cable: u32,
}
