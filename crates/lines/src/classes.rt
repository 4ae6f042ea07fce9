// Classes of tasks by their places: in the section, counted, upgrading and upgraded.
ghost use Rattle.std.specs.Prelude.{◌≡◌};
ghost use Rattle.lines.specs.Numbers.{code};
ghost use Rattle.lines.specs.Classes.{counted_line, has_upgraded, in_section, is_counted, is_upgrading, is_writing_normally, may_write, section_line, upgraded_line, upgrading_line};

use crate::place::{Line, Place, Right, Role, Standing};
use crate::track::Track;

impl Line {
    // Whether a task at this line is in the section.
    fn in_section(self) -> bool
        ensures { result ≡ section_line (code self) }
    {
        matches!(
            self,
            Line::L25p2
                | Line::L25p3
                | Line::L27p2
                | Line::L27p3
                | Line::L27p4
                | Line::L27p5
                | Line::Down28p2
        )
    }

    // Whether a task of this role is counted at this line.
    fn is_counted(self, role: Role) -> bool
        ensures { result ≡ counted_line role (code self) }
    {
        match self {
            Line::L16p1
            | Line::L17
            | Line::L18
            | Line::L19
            | Line::L20
            | Line::L21
            | Line::L22
            | Line::L22p1
            | Line::L22p2 => role == Role::Reader,
            Line::L25p2 | Line::L25p3 => true,
            Line::L27p2 | Line::L27p3 | Line::L27p4 | Line::L27p5 => true,
            Line::Down28p2 | Line::L28p2 | Line::L29p2 => true,
            _ => false,
        }
    }

    // Whether a task at this line is upgrading or upgraded.
    fn is_upgrading(self) -> bool
        ensures { result ≡ upgrading_line (code self) }
    {
        match self {
            Line::L27p2 | Line::L27p3 | Line::L27p4 | Line::L27p5 => true,
            _ => self.has_upgraded(),
        }
    }

    // Whether a task at this line is upgraded.
    fn has_upgraded(self) -> bool
        ensures { result ≡ upgraded_line (code self) }
    {
        matches!(self, Line::Down28p2 | Line::L28p2)
    }
}

impl Track {
    // Whether the task holds the lock.
    pub fn in_section(&self) -> bool
        ensures { result ≡ in_section self.now }
    {
        match self.place {
            Place::Rest => false,
            Place::Inside => true,
            Place::Next(line) => line.in_section(),
        }
    }

    // Whether cell C counts the task.
    pub fn is_counted(&self) -> bool
        ensures { result ≡ is_counted self.now }
    {
        match self.place {
            Place::Rest => false,
            Place::Inside => !self.is_writing_normally(),
            Place::Next(line) => line.is_counted(self.role),
        }
    }

    // Whether cell U is 2 for the task.
    pub fn has_upgraded(&self) -> bool
        ensures { result ≡ has_upgraded self.now }
    {
        match self.place {
            Place::Rest => false,
            Place::Inside => self.standing == Standing::Upgraded,
            Place::Next(line) => line.has_upgraded(),
        }
    }

    // Whether the task is upgrading or upgraded.
    pub fn is_upgrading(&self) -> bool
        ensures { result ≡ is_upgrading self.now }
    {
        match self.place {
            Place::Rest => false,
            Place::Inside => self.standing == Standing::Upgraded,
            Place::Next(line) => line.is_upgrading(),
        }
    }

    // Whether the task is a normal writer inside.
    pub fn is_writing_normally(&self) -> bool
        ensures { result ≡ is_writing_normally self.now }
    {
        matches!(
            (self.place, self.role, self.standing),
            (Place::Inside, Role::Writer, Standing::Normal)
        )
    }

    // Whether the task has the writing right.
    pub fn may_write(&self) -> bool
        ensures { result ≡ may_write self.now }
    {
        self.right() == Some(Right::Writing)
    }
}
