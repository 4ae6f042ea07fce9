// Where a task is: at rest, inside, or on its way with a next line.
ghost use Rattle.std.specs.Prelude.{◌≡◌};
ghost use Rattle.lines.specs.Numbers.{tenfold};

// A task is a reader or a writer for good.
#[derive(Clone, Copy, PartialEq, Eq, Debug)]
pub enum Role {
    Reader,
    Writer,
}

// How a task inside stands.
#[derive(Clone, Copy, PartialEq, Eq, Debug)]
pub enum Standing {
    Normal,
    Upgraded,
    Downgraded,
}

// What a task inside may do with the table.
#[derive(Clone, Copy, PartialEq, Eq, Debug)]
pub enum Right {
    Reading,
    Writing,
}

// A line by its published number, p for the point: L16p1 is line 16.1. Lines 28.1
// and 28.2 have two forms, since an upgraded task does them to downgrade (Down28p1,
// Down28p2) and to leave (L28p1, L28p2). The value is ten times the number, and
// 1000 more in the form that downgrades.
#[derive(Clone, Copy, PartialEq, Eq, Debug)]
pub enum Line {
    L0p1 = 1,
    L0p2 = 2,
    L1 = 10,
    L2 = 20,
    L3 = 30,
    L4 = 40,
    L6 = 60,
    L7 = 70,
    L8 = 80,
    L9 = 90,
    L10 = 100,
    L11 = 110,
    L12 = 120,
    L13 = 130,
    L14 = 140,
    L15 = 150,
    L16 = 160,
    L16p1 = 161,
    L17 = 170,
    L18 = 180,
    L19 = 190,
    L20 = 200,
    L21 = 210,
    L22 = 220,
    L22p1 = 221,
    L22p2 = 222,
    L23 = 230,
    L25p1 = 251,
    L25p2 = 252,
    L25p3 = 253,
    L26p1 = 261,
    L27p1 = 271,
    L27p2 = 272,
    L27p3 = 273,
    L27p4 = 274,
    L27p5 = 275,
    Down28p1 = 1281,
    Down28p2 = 1282,
    L28p1 = 281,
    L28p2 = 282,
    L29p2 = 292,
    L32p1 = 321,
}

impl Line {
    // Ten times the published number: a cast by name and no `From`, since two lines share one number.
    #[inline(always)]
    pub fn tenfold(self) -> u32
        ensures { result ≡ tenfold self }
    {
        self as u32 % 1000
    }
}

#[derive(Clone, Copy, PartialEq, Eq, Debug)]
pub enum Place {
    Rest,
    Inside,
    Next(Line),
}
