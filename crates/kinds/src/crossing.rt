// The rays that boulders cast, what a lane crosses, and how that is written.
ghost use Rattle.std.specs.Prelude.{◌≡◌};
ghost use Rattle.kinds.specs.Crossings.{numbered, Numbers, other_way};
ghost use Rattle.kinds.specs.Symbols.{symbol_of, Reads};

use std::error::Error;
use std::fmt;

// One of the seven rays.
#[derive(Clone, Copy, PartialEq, Eq, Debug)]
pub enum Ray {
    One,
    Two,
    Three,
    Four,
    Five,
    Six,
    Seven,
}

// A number that is no ray's.
#[derive(Clone, Copy, PartialEq, Eq, Debug)]
pub struct NoRay(pub u8);

impl Ray {
    // Its number, 1 to 7.
    pub fn number(self) -> u8
        ensures { result ≡ numbered self }
    {
        self as u8 + 1
    }
}

// The ray with this number, 1 to 7.
impl TryFrom<u8> for Ray {
    type Error = NoRay;

    ghost try_from_gives = { Numbers };

    fn try_from(number: u8) -> Result<Ray, NoRay> {
        match number {
            1 => Ok(Ray::One),
            2 => Ok(Ray::Two),
            3 => Ok(Ray::Three),
            4 => Ok(Ray::Four),
            5 => Ok(Ray::Five),
            6 => Ok(Ray::Six),
            7 => Ok(Ray::Seven),
            _ => Err(NoRay(number)),
        }
    }
}

impl fmt::Display for NoRay {
    fn fmt<W: fmt::Write>(&self, f: &mut fmt::Formatter<W>) -> fmt::Result {
        write!(f, "no ray has the number {}", self.0)
    }
}

impl Error for NoRay {}

// What a lane crosses: no ray, or one ray forwards or backwards.
// Three variants, and no `Option` of a ray and a direction: each match would be two layers deep.
#[derive(Clone, Copy, PartialEq, Eq, Debug)]
pub enum Crossing {
    None,
    Forwards(Ray),
    Backwards(Ray),
}

// A character that stands for no crossing.
#[derive(Clone, Copy, PartialEq, Eq, Debug)]
pub struct NoCrossing(pub char);

impl Crossing {
    // The same ray the other way.
    pub fn opposite(self) -> Crossing
        ensures { result ≡ other_way self }
    {
        match self {
            Crossing::None => Crossing::None,
            Crossing::Forwards(ray) => Crossing::Backwards(ray),
            Crossing::Backwards(ray) => Crossing::Forwards(ray),
        }
    }
}

// Its character: a to g for the rays forwards, A to G backwards, - for none.
impl From<Crossing> for char {
    ghost from_gives = { λ crossing symbol. symbol ≡ symbol_of crossing };

    fn from(crossing: Crossing) -> char {
        match crossing {
            Crossing::None => '-',
            Crossing::Forwards(ray) => char::from(b'a' + (ray.number() - 1)),
            Crossing::Backwards(ray) => char::from(b'A' + (ray.number() - 1)),
        }
    }
}

// The crossing with this character.
impl TryFrom<char> for Crossing {
    type Error = NoCrossing;

    ghost try_from_gives = { Reads };

    fn try_from(symbol: char) -> Result<Crossing, NoCrossing> {
        match symbol {
            '-' => Ok(Crossing::None),
            'a' => Ok(Crossing::Forwards(Ray::One)),
            'b' => Ok(Crossing::Forwards(Ray::Two)),
            'c' => Ok(Crossing::Forwards(Ray::Three)),
            'd' => Ok(Crossing::Forwards(Ray::Four)),
            'e' => Ok(Crossing::Forwards(Ray::Five)),
            'f' => Ok(Crossing::Forwards(Ray::Six)),
            'g' => Ok(Crossing::Forwards(Ray::Seven)),
            'A' => Ok(Crossing::Backwards(Ray::One)),
            'B' => Ok(Crossing::Backwards(Ray::Two)),
            'C' => Ok(Crossing::Backwards(Ray::Three)),
            'D' => Ok(Crossing::Backwards(Ray::Four)),
            'E' => Ok(Crossing::Backwards(Ray::Five)),
            'F' => Ok(Crossing::Backwards(Ray::Six)),
            'G' => Ok(Crossing::Backwards(Ray::Seven)),
            _ => Err(NoCrossing(symbol)),
        }
    }
}

impl fmt::Display for Crossing {
    fn fmt<W: fmt::Write>(&self, f: &mut fmt::Formatter<W>) -> fmt::Result {
        f.write_char(char::from(*self))
    }
}

impl fmt::Display for NoCrossing {
    fn fmt<W: fmt::Write>(&self, f: &mut fmt::Formatter<W>) -> fmt::Result {
        write!(f, "'{}' is no crossing: use a to g, A to G or -", self.0)
    }
}

impl Error for NoCrossing {}
