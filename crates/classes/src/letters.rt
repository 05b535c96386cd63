// The letters of words: a ray forwards or backwards.
ghost use Rattle.std.specs.Prelude.{◌≡◌};
ghost use Rattle.classes.specs.Letters.{rank_of, turned, letter_of, crossing_of, forwards_of};

use kinds::crossing::{Crossing, Ray};

// Ray 1 is a forwards and A backwards, up to ray 7 with g and G; in the order a, A, b, B, up to G.
#[derive(Clone, Copy, PartialEq, Eq, PartialOrd, Ord, Debug)]
pub enum Letter {
    LowerA,
    UpperA,
    LowerB,
    UpperB,
    LowerC,
    UpperC,
    LowerD,
    UpperD,
    LowerE,
    UpperE,
    LowerF,
    UpperF,
    LowerG,
    UpperG,
}

impl Letter {
    // The same ray the other way.
    pub fn opposite(self) -> Letter
        ensures { result ≡ turned self }
    {
        match self {
            Letter::LowerA => Letter::UpperA,
            Letter::UpperA => Letter::LowerA,
            Letter::LowerB => Letter::UpperB,
            Letter::UpperB => Letter::LowerB,
            Letter::LowerC => Letter::UpperC,
            Letter::UpperC => Letter::LowerC,
            Letter::LowerD => Letter::UpperD,
            Letter::UpperD => Letter::LowerD,
            Letter::LowerE => Letter::UpperE,
            Letter::UpperE => Letter::LowerE,
            Letter::LowerF => Letter::UpperF,
            Letter::UpperF => Letter::LowerF,
            Letter::LowerG => Letter::UpperG,
            Letter::UpperG => Letter::LowerG,
        }
    }

    // Its place in the order a, A, b, B, up to G, from 0.
    pub fn rank(self) -> u8
        ensures { result ≡ rank_of self }
    {
        self as u8
    }

    // The letter of a ray forwards.
    pub fn forwards(ray: Ray) -> Letter
        ensures { result ≡ forwards_of ray }
    {
        match ray {
            Ray::One => Letter::LowerA,
            Ray::Two => Letter::LowerB,
            Ray::Three => Letter::LowerC,
            Ray::Four => Letter::LowerD,
            Ray::Five => Letter::LowerE,
            Ray::Six => Letter::LowerF,
            Ray::Seven => Letter::LowerG,
        }
    }

    // The letter of a crossing; none if it crosses no ray. An `Option`, as it is no error to have none.
    pub fn of(crossing: Crossing) -> Option<Letter>
        ensures { result ≡ letter_of crossing }
    {
        match crossing {
            Crossing::None => None,
            Crossing::Forwards(ray) => Some(Letter::forwards(ray)),
            Crossing::Backwards(ray) => Some(Letter::forwards(ray).opposite()),
        }
    }
}

// The crossing that a letter stands for.
impl From<Letter> for Crossing {
    ghost from_gives = { λ letter crossing. crossing ≡ crossing_of letter };

    fn from(letter: Letter) -> Crossing {
        match letter {
            Letter::LowerA => Crossing::Forwards(Ray::One),
            Letter::UpperA => Crossing::Backwards(Ray::One),
            Letter::LowerB => Crossing::Forwards(Ray::Two),
            Letter::UpperB => Crossing::Backwards(Ray::Two),
            Letter::LowerC => Crossing::Forwards(Ray::Three),
            Letter::UpperC => Crossing::Backwards(Ray::Three),
            Letter::LowerD => Crossing::Forwards(Ray::Four),
            Letter::UpperD => Crossing::Backwards(Ray::Four),
            Letter::LowerE => Crossing::Forwards(Ray::Five),
            Letter::UpperE => Crossing::Backwards(Ray::Five),
            Letter::LowerF => Crossing::Forwards(Ray::Six),
            Letter::UpperF => Crossing::Backwards(Ray::Six),
            Letter::LowerG => Crossing::Forwards(Ray::Seven),
            Letter::UpperG => Crossing::Backwards(Ray::Seven),
        }
    }
}
