// How many tasks there are of each class.
ghost use Rattle.std.specs.Prelude.{◌≡◌, ◌≤◌, length};
ghost use Rattle.calls.specs.Census.{Room, census_of, joined_by};

use crate::record::Record;
use lines::track::Track;

#[derive(Clone, Copy)]
pub(crate) struct Census {
    // those that C counts
    pub(crate) counted: u32,
    // those in the section
    pub(crate) section: u32,
    // those with the writing right
    pub(crate) writing: u32,
    // those upgrading or upgraded
    pub(crate) upgrading: u32,
    // those for which U is 2
    pub(crate) upgraded: u32,
    // normal writers inside
    pub(crate) normal: u32,
}

impl Census {
    // Of these tasks, at most 64: the slice may come from anywhere, so no type says it.
    pub(crate) fn of(tasks: &[Record]) -> Census
        requires { length tasks.now ≤ 64 }
        ensures { result ≡ census_of tasks.now }
    {
        let mut census = Census {
            counted: 0,
            section: 0,
            writing: 0,
            upgrading: 0,
            upgraded: 0,
            normal: 0,
        };
        for task in tasks {
            census.add(&task.track);
        }
        census
    }

    // One task more.
    fn add(&mut self, track: &Track)
        requires { Room self.old }
        ensures { self.new ≡ joined_by self.old track.now }
    {
        self.counted += track.is_counted() as u32;
        self.section += track.in_section() as u32;
        self.writing += track.may_write() as u32;
        self.upgrading += track.is_upgrading() as u32;
        self.upgraded += track.has_upgraded() as u32;
        self.normal += track.is_writing_normally() as u32;
    }
}
