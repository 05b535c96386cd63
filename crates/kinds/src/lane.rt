// A lane: one way from a point to another.
use crate::crossing::Crossing;

// The point it leads to, its length in centimetres, its risk, and what it crosses.
#[derive(Clone, Copy, PartialEq, Eq, Debug)]
pub struct Lane {
    pub to: u16,
    pub length: u16,
    pub risk: u8,
    pub crossing: Crossing,
}
