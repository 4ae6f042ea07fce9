// A task's way through the lines.
ghost use Rattle.std.specs.Prelude.{◌≡◌, ◌<◌, ◌≤◌};
ghost use Rattle.lines.specs.Numbers.{tenfold};
ghost use Rattle.lines.specs.Rights.{right_of};
ghost use Rattle.lines.specs.Lines.{at_rest, comes_in, ends, next_deed, rests, settle, stepped};

use crate::deed::{Deed, Found};
use crate::place::{Line, Place, Right, Role, Standing};
use memory::cells::{C, D, GATE, PERMIT, U, V, X};
use memory::operation::{Operation, Step};

// Where a task is, and the numbers that it keeps for itself from line to line.
#[derive(Clone, Copy)]
pub struct Track {
    pub role: Role,
    pub place: Place,
    pub standing: Standing,
    // prevD: the number of D before a writer turns it over
    pub prev: u32,
    // currD: the number that a writer writes into D
    pub curr: u32,
    // the number of D that a reader found
    pub d: u32,
    // the number of X that a task found, 0 for none: no Option, since the published lines compare X and x with 0
    pub x: u32,
}

impl Track {
    // A task of this role at rest, with all its numbers 0.
    pub fn new(role: Role) -> Track
        ensures { result ≡ at_rest role }
    {
        Track {
            role,
            place: Place::Rest,
            standing: Standing::Normal,
            prev: 0,
            curr: 0,
            d: 0,
            x: 0,
        }
    }

    // The right that the task has, which it has only inside.
    #[inline(always)]
    pub fn right(&self) -> Option<Right>
        ensures { result ≡ right_of self.now }
    {
        match (self.place, self.role, self.standing) {
            (Place::Inside, Role::Writer, Standing::Normal) => Some(Right::Writing),
            (Place::Inside, _, Standing::Upgraded) => Some(Right::Writing),
            (Place::Inside, _, _) => Some(Right::Reading),
            _ => None,
        }
    }

    // The one deed of the next line, for the task with this number.
    #[inline(always)]
    pub fn deed(&self, task: u32) -> Deed
        ensures { result ≡ next_deed task self.now }
    {
        let Place::Next(line) = self.place else {
            return Deed::Nothing;
        };
        match line {
            Line::L0p1 => Deed::Join,
            Line::L0p2 => Deed::First,
            Line::L1 | Line::L17 => Deed::Touch(Operation::Read(D)),
            Line::L2 | Line::L10 | Line::L19 => Deed::Nothing,
            Line::L3 => Deed::Touch(Operation::Write(D, self.curr)),
            Line::L4 => Deed::Touch(Operation::Write(PERMIT, 0)),
            Line::L6 | Line::L12 => Deed::Touch(Operation::Read(PERMIT)),
            Line::L7 | Line::L25p2 => Deed::Touch(Operation::Write(GATE, self.curr)),
            Line::L8 | Line::L25p3 => Deed::Touch(Operation::Write(X, task)),
            Line::L9 | Line::L18 | Line::L21 => Deed::Touch(Operation::Read(X)),
            Line::L11 | Line::L20 => Deed::Touch(Operation::Swap(X, self.x, task)),
            Line::L13 | Line::L27p1 | Line::L27p3 => Deed::Touch(Operation::Read(C)),
            Line::L14 => Deed::Touch(Operation::Swap(X, task, 0)),
            Line::L15 => Deed::Touch(Operation::Write(PERMIT, 1)),
            Line::L16 | Line::L25p1 => Deed::Touch(Operation::Add(C, Step::Up)),
            Line::L16p1 => Deed::Touch(Operation::Swap(U, 1, 0)),
            Line::L22 => Deed::Touch(Operation::Read(GATE)),
            Line::L22p1 => Deed::Touch(Operation::Read(U)),
            Line::L22p2 => Deed::Touch(Operation::Read(V)),
            Line::L23 | Line::L26p1 | Line::L29p2 => Deed::Touch(Operation::Add(C, Step::Down)),
            Line::L27p2 => Deed::Touch(Operation::Write(U, 1)),
            Line::L27p4 => Deed::Touch(Operation::Write(V, 1)),
            Line::L27p5 => Deed::Touch(Operation::Swap(U, 1, 2)),
            Line::Down28p1 | Line::L28p1 => Deed::Touch(Operation::Write(V, 0)),
            Line::Down28p2 | Line::L28p2 => Deed::Touch(Operation::Write(U, 0)),
            Line::L32p1 => Deed::Quit,
        }
    }

    // The next line was done, and this is what it found. A task that is on no line stays as it is.
    // The groups go by the published numbers: one match over all 42 lines would be too long to read.
    #[inline(always)]
    pub fn step(&mut self, found: Found)
        ensures { self.new ≡ stepped self.old found }
    {
        let Place::Next(line) = self.place else {
            return;
        };
        match line.tenfold() {
            0..90 => self.step_writer(line, found),
            90..160 => self.step_promote(line, found),
            160..230 => self.step_reader(line, found),
            _ => self.step_inside(line, found),
        }
    }

    // A line of a writer was done: 0.1 to 6 on the way in, 7 and 8 on the way out. (Line and found come
    // side by side to these four: each matches on the pair, and a struct would only wrap it.)
    #[inline(always)]
    fn step_writer(&mut self, line: Line, found: Found)
        requires { tenfold line < 90 }
        ensures { self.new ≡ settle line self.old found }
    {
        match (line, found) {
            (Line::L0p2, Found::Answer(true)) => self.place = Place::Next(Line::L1),
            (Line::L0p1 | Line::L0p2, _) => self.place = Place::Next(Line::L0p2),
            (Line::L1, _) => {
                self.prev = found.number();
                self.place = Place::Next(Line::L2);
            }
            (Line::L2, _) => {
                self.curr = 1u32.saturating_sub(self.prev);
                self.place = Place::Next(Line::L3);
            }
            (Line::L3, _) => self.place = Place::Next(Line::L4),
            (Line::L4, _) => self.place = Place::Next(Line::L9),
            (Line::L6, Found::Number(1)) => self.enter(Standing::Normal),
            (Line::L6, _) => self.place = Place::Next(Line::L6),
            (Line::L7, _) => self.place = Place::Next(Line::L8),
            _ => self.place = Place::Next(Line::L32p1),
        }
    }

    // A line of promote was done, 9 to 15.
    #[inline(always)]
    fn step_promote(&mut self, line: Line, found: Found)
        requires { (90 ≤ tenfold line) × (tenfold line < 160) }
        ensures { self.new ≡ settle line self.old found }
    {
        match (line, found) {
            (Line::L9, _) => {
                self.x = found.number();
                self.place = Place::Next(Line::L10);
            }
            (Line::L10, _) if self.x != 0 => self.place = Place::Next(Line::L11),
            (Line::L11, Found::Answer(true)) => self.place = Place::Next(Line::L12),
            (Line::L12, _) if found != Found::Number(1) => self.place = Place::Next(Line::L13),
            (Line::L13, Found::Number(0)) => self.place = Place::Next(Line::L14),
            (Line::L14, Found::Answer(true)) => self.place = Place::Next(Line::L15),
            _ => self.end_promote(),
        }
    }

    // A line of a reader's way in was done, 16 to 22.2.
    #[inline(always)]
    fn step_reader(&mut self, line: Line, found: Found)
        requires { (160 ≤ tenfold line) × (tenfold line < 230) }
        ensures { self.new ≡ settle line self.old found }
    {
        match (line, found) {
            (Line::L16, _) => self.place = Place::Next(Line::L16p1),
            (Line::L16p1, _) => self.place = Place::Next(Line::L17),
            (Line::L17, _) => {
                self.d = found.number();
                self.place = Place::Next(Line::L18);
            }
            (Line::L18, _) => {
                self.x = found.number();
                self.place = Place::Next(Line::L19);
            }
            (Line::L19, _) if self.x != 0 => self.place = Place::Next(Line::L20),
            (Line::L19 | Line::L20, _) => self.place = Place::Next(Line::L21),
            (Line::L21, Found::Number(0)) => self.place = Place::Next(Line::L22),
            (Line::L21, _) => self.place = Place::Next(Line::L22p1),
            (Line::L22, _) if found == Found::Number(self.d) => self.place = Place::Next(
                Line::L22p1,
            ),
            (Line::L22, _) => self.place = Place::Next(Line::L22),
            (Line::L22p1, Found::Number(2)) => self.place = Place::Next(Line::L22p2),
            (Line::L22p2, _) if found != Found::Number(0) => self.place = Place::Next(Line::L22p2),
            _ => self.enter(Standing::Normal),
        }
    }

    // A line of a task that was inside was done: upgrade, downgrade or leave, 23 to 32.1.
    #[inline(always)]
    fn step_inside(&mut self, line: Line, found: Found)
        requires { 230 ≤ tenfold line }
        ensures { self.new ≡ settle line self.old found }
    {
        match (line, found) {
            (Line::L23, _) => self.place = Place::Next(Line::L9),
            (Line::L25p1, _) => self.place = Place::Next(Line::L25p2),
            (Line::L25p2, _) => self.place = Place::Next(Line::L25p3),
            (Line::L25p3 | Line::Down28p2, _) => self.enter(Standing::Downgraded),
            (Line::L26p1, _) => self.place = Place::Next(Line::L32p1),
            (Line::L27p1 | Line::L27p3, Found::Number(2..)) => self.place = Place::Inside,
            (Line::L27p1, _) => self.place = Place::Next(Line::L27p2),
            (Line::L27p2, _) => self.place = Place::Next(Line::L27p3),
            (Line::L27p3, _) => self.place = Place::Next(Line::L27p4),
            (Line::L27p4, _) => self.place = Place::Next(Line::L27p5),
            (Line::L27p5, Found::Answer(true)) => self.enter(Standing::Upgraded),
            (Line::L27p5, _) => self.place = Place::Inside,
            (Line::Down28p1, _) => self.place = Place::Next(Line::Down28p2),
            (Line::L28p1, _) => self.place = Place::Next(Line::L28p2),
            (Line::L28p2, _) => self.place = Place::Next(Line::L29p2),
            (Line::L29p2, _) => match self.role {
                Role::Writer => self.place = Place::Next(Line::L32p1),
                Role::Reader => self.place = Place::Next(Line::L9),
            },
            _ => self.rest(),
        }
    }

    // Inside from now on, and standing so.
    fn enter(&mut self, standing: Standing)
        ensures { self.new ≡ comes_in self.old standing }
    {
        self.place = Place::Inside;
        self.standing = standing;
    }

    fn rest(&mut self)
        ensures { self.new ≡ rests self.old }
    {
        self.place = Place::Rest;
        self.standing = Standing::Normal;
    }

    // The end of promote: a writer waits at line 6, a reader is done.
    fn end_promote(&mut self)
        ensures { self.new ≡ ends self.old }
    {
        match self.role {
            Role::Writer => self.place = Place::Next(Line::L6),
            Role::Reader => self.rest(),
        }
    }
}
