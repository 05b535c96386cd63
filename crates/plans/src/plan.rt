// What reading a plan answers: a record that borrows nothing. The rest of the plan lies in the lent memory.

// A post, in the middle of the square whose south-west corner is this column and row.
#[derive(Clone, Copy, PartialEq, Eq, Debug)]
pub struct Post {
    pub column: u8,
    pub row: u8,
}

// A grid: its sizes, its spacing in centimetres, and its posts in the order read.
// The posts lie in places of their own, since there is no heap; how many of them count may be any number.
#[derive(Clone, Copy, PartialEq, Eq, Debug)]
pub struct Grid {
    pub width: u8,
    pub height: u8,
    pub spacing: u16,
    pub posts: [Post; 7],
    pub count: u8,
}

// A roadmap: how many points and lanes it has.
#[derive(Clone, Copy, PartialEq, Eq, Debug)]
pub struct Road {
    pub points: u16,
    pub lanes: u16,
}

#[derive(Clone, Copy, PartialEq, Eq, Debug)]
pub enum Plan {
    Grid(Grid),
    Road(Road),
}
