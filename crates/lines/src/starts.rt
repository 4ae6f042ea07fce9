// The first line of an attempt, of a downgrade and of a leave. (An upgrade always starts with 27.1.)
ghost use Rattle.std.specs.Prelude.{◌≡◌};
ghost use Rattle.lines.specs.Starts.{begin_line, downgrade_line, leave_line};

use crate::place::{Line, Role, Standing};
use crate::track::Track;

impl Track {
    // 16 for a reader, 0.1 for a writer.
    pub fn begin_line(&self) -> Line
        ensures { result ≡ begin_line self.now.role }
    {
        match self.role {
            Role::Reader => Line::L16,
            Role::Writer => Line::L0p1,
        }
    }

    // 28.1 for an upgraded task, 25.1 for a normal writer.
    pub fn downgrade_line(&self) -> Line
        ensures { result ≡ downgrade_line self.now.standing }
    {
        match self.standing {
            Standing::Upgraded => Line::Down28p1,
            Standing::Normal | Standing::Downgraded => Line::L25p1,
        }
    }

    // 28.1 for an upgraded task, 7 for a normal writer, 26.1 for a downgraded one, 23 for any other reader.
    pub fn leave_line(&self) -> Line
        ensures { result ≡ leave_line self.now.role self.now.standing }
    {
        match (self.role, self.standing) {
            (_, Standing::Upgraded) => Line::L28p1,
            (Role::Reader, Standing::Normal | Standing::Downgraded) => Line::L23,
            (Role::Writer, Standing::Normal) => Line::L7,
            (Role::Writer, Standing::Downgraded) => Line::L26p1,
        }
    }
}
