// Reading a grid plan, from behind its letter: its record, and the rest into lent memory.
// The point in a row and a column has the number p = row × width + column.
// Byte p of the memory is its risk, and byte 4,096 + p is 1 if it is blocked.
ghost use Rattle.std.specs.Prelude.{◌≡◌, ◌<◌, ◌≤◌, true, false, [], ◌∷◌, length, MatchResult};
ghost use Rattle.plans.specs.GridPlans.{head_of, Inside, Opened};
ghost use Rattle.plans.specs.Holdings.{blank};
ghost use Rattle.plans.specs.Grids.{place};
ghost use Rattle.plans.specs.GridSteps.{Squared, Taken, PostJudged, PostAdded, Holds, GridRead};

use crate::fault::{Fault, Stop};
use crate::grid::{BLOCKED, Spot};
use crate::plan::{Grid, Post};
use crate::reader::{Reader, read_commands};

// What the record holds where no post is.
const NOWHERE: Post = Post { column: 0, row: 0 };

impl Grid {
    // Whether the square with this south-west corner lies in the grid.
    fn has_square(&self, corner: Post) -> bool
        ensures yes { result ≡ true → Squared self.now corner.column corner.row }
        ensures no { result ≡ false → Squared self.now corner.column corner.row → ⊥ }
    {
        u16::from(corner.column) + 2 <= u16::from(self.width)
            && u16::from(corner.row) + 2 <= u16::from(self.height)
    }

    // Whether one of the posts stands in the column.
    fn has_post_in(&self, column: u8) -> bool
        requires { self.now.count ≤ 7 }
        ensures yes { result ≡ true → Taken self.now column }
        ensures no { result ≡ false → Taken self.now column → ⊥ }
    {
        self.standing().iter().any(|post| post.column == column)
    }

    // Whether no post can be added, since there are seven.
    fn is_full(&self) -> bool
        ensures yes { result ≡ true → 7 ≤ self.now.count }
        ensures no { result ≡ false → self.now.count < 7 }
    {
        self.count >= 7
    }
}

// A grid while its commands are read, and the memory that is lent for its points.
#[derive(Drop)]
struct GridReader<'a> {
    grid: Grid,
    memory: &'a mut [u8],
    ghost narrow: { grid.width ≤ 64 },
    ghost low: { grid.height ≤ 64 },
    ghost few: { grid.count ≤ 7 },
    ghost long: { length memory.now ≡ 10240 },
}

impl GridReader<'_> {
    // Whether one more post may stand where this one does, or the first thing that is wrong with it.
    fn judge_post(&self, post: Post) -> Result<(), Fault>
        ensures { PostJudged self.now.grid post.column post.row result }
    {
        if !self.grid.has_square(post) {
            return Err(Fault::OutOfRange);
        }
        if self.grid.has_post_in(post.column) {
            return Err(Fault::GivenTwice);
        }
        if self.grid.is_full() {
            return Err(Fault::TooMany);
        }
        Ok(())
    }

    // Takes up one more post, unless something is wrong with it.
    fn add_post(&mut self, post: Post) -> Result<(), Fault>
        ensures head { head_of self.new.grid ≡ head_of self.old.grid }
        ensures same_slice { self.new.memory.ghost_name ≡ self.old.memory.ghost_name }
        ensures kept { self.new.memory.now ≡ self.old.memory.now }
        ensures added { PostAdded self.old.grid post.column post.row self.new.grid result }
    {
        self.judge_post(post)?;
        self.grid.posts[usize::from(self.grid.count)] = post;
        self.grid.count += 1;
        Ok(())
    }

    // The number of a point, which must lie in the grid.
    fn place_of(&self, spot: Spot) -> Result<usize, Fault>
        ensures { MatchResult result (λ p. Inside self.now.grid spot.column spot.row × (p ≡ place self.now.grid.width spot.column spot.row) × (p < 4096)) (λ f. (f ≡ Fault.OutOfRange) × (Inside self.now.grid spot.column spot.row → ⊥)) }
    {
        if spot.column < self.grid.width && spot.row < self.grid.height {
            Ok(usize::from(self.grid.point_at(spot)))
        } else {
            Err(Fault::OutOfRange)
        }
    }

    // Reads what stands behind an R: a post's column and row. Answers what is left after them.
    fn read_post<'a>(&mut self, operands: &'a [u8]) -> Result<&'a [u8], Stop>
        ensures head { head_of self.new.grid ≡ head_of self.old.grid }
        ensures same_slice { self.new.memory.ghost_name ≡ self.old.memory.ghost_name }
        ensures said { GridRead self.old.grid self.old.memory.now (82 ∷ operands.now) self.new.grid self.new.memory.now result }
    {
        let [column, row, next @ ..] = operands else {
            return Err(Fault::CutShort.into());
        };
        self.add_post(Post {
            column: *column,
            row: *row,
        })?;
        Ok(next)
    }

    // Reads what stands behind a B: the column and row of a point to be blocked. Apart from the next, whose
    // third operand must be there before the point is judged.
    fn read_block<'a>(&mut self, operands: &'a [u8]) -> Result<&'a [u8], Stop>
        ensures head { head_of self.new.grid ≡ head_of self.old.grid }
        ensures same_slice { self.new.memory.ghost_name ≡ self.old.memory.ghost_name }
        ensures said { GridRead self.old.grid self.old.memory.now (66 ∷ operands.now) self.new.grid self.new.memory.now result }
    {
        let [column, row, next @ ..] = operands else {
            return Err(Fault::CutShort.into());
        };
        let place = self.place_of(Spot {
            column: *column,
            row: *row,
        })?;
        self.memory[BLOCKED + place] = 1;
        Ok(next)
    }

    // Reads what stands behind a W: a point's column and row, and its risk.
    fn read_weigh<'a>(&mut self, operands: &'a [u8]) -> Result<&'a [u8], Stop>
        ensures head { head_of self.new.grid ≡ head_of self.old.grid }
        ensures same_slice { self.new.memory.ghost_name ≡ self.old.memory.ghost_name }
        ensures said { GridRead self.old.grid self.old.memory.now (87 ∷ operands.now) self.new.grid self.new.memory.now result }
    {
        let [column, row, risk, next @ ..] = operands else {
            return Err(Fault::CutShort.into());
        };
        let place = self.place_of(Spot {
            column: *column,
            row: *row,
        })?;
        self.memory[place] = *risk;
        Ok(next)
    }
}

impl Reader for GridReader<'_> {
    ghost head = { λ r. head_of r.grid };

    ghost holds = { λ cs r. Holds cs r.grid r.memory.now };

    ghost lent = { λ r. r.memory.ghost_name ∷ [] };

    fn take<'a>(&mut self, letter: u8, operands: &'a [u8]) -> Result<&'a [u8], Stop> {
        match letter {
            b'R' => self.read_post(operands),
            b'B' => self.read_block(operands),
            b'W' => self.read_weigh(operands),
            _ => Err(Fault::UnknownCommand.into()),
        }
    }
}

// Reads what stands behind the plan's G into blank memory. A fault's offset is from the G.
pub(crate) fn read_grid(operands: &[u8], memory: &mut [u8]) -> Result<Grid, Stop>
    requires { (memory.old ≡ blank) × (length operands.now < 65535) }
    ensures { Opened (71 ∷ operands.now) memory.new result }
{
    let [width, height, high, low, commands @ ..] = operands else {
        return Err(Fault::CutShort.into());
    };
    let grid = Grid {
        width: *width,
        height: *height,
        spacing: u16::from_be_bytes([*high, *low]),
        posts: [NOWHERE; 7],
        count: 0,
    };
    if !grid.is_sized() {
        return Err(Fault::OutOfRange.into());
    }
    let mut reader = GridReader { grid, memory };
    read_commands(&mut reader, commands).map_err(|stop| stop.after(5))?;
    Ok(reader.grid)
}
