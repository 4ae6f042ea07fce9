// What a line of a schedule says. Notes and roles are parts of the input.
ghost use Rattle.std.specs.Prelude.{◌≡◌};
ghost use Rattle.script.specs.Calls.{memory_kind, queue_kind};

use crate::refusal::Refusal;

#[derive(Clone, Copy, PartialEq, Eq, Debug)]
pub enum MemoryKind {
    Words,
    Packed,
}

// By the letter that is the whole field.
impl TryFrom<&[u8]> for MemoryKind {
    type Error = Refusal;

    ghost try_from_gives = { λ field r. r ≡ memory_kind field.now };

    fn try_from(field: &[u8]) -> Result<Self, Refusal> {
        match field {
            [b'w'] => Ok(MemoryKind::Words),
            [b'p'] => Ok(MemoryKind::Packed),
            _ => Err(Refusal::Fields),
        }
    }
}

#[derive(Clone, Copy, PartialEq, Eq, Debug)]
pub enum QueueKind {
    Ring,
    Masks,
}

impl TryFrom<&[u8]> for QueueKind {
    type Error = Refusal;

    ghost try_from_gives = { λ field r. r ≡ queue_kind field.now };

    fn try_from(field: &[u8]) -> Result<Self, Refusal> {
        match field {
            [b'r'] => Ok(QueueKind::Ring),
            [b'm'] => Ok(QueueKind::Masks),
            _ => Err(Refusal::Fields),
        }
    }
}

#[derive(Clone, Copy, PartialEq, Eq, Debug)]
pub enum Call<'a> {
    // a lock over a memory and a queue, with a role for each task (as bytes, which may be no roles)
    Open(MemoryKind, QueueKind, &'a [u8]),
    // each with its task
    Begin(u32),
    Advance(u32),
    Upgrade(u32),
    Downgrade(u32),
    Leave(u32),
    // a task and a row
    Read(u32, u32),
    // a task, a row and a thickness
    Put(u32, u32, u32),
}

#[derive(Clone, Copy, PartialEq, Eq, Debug)]
pub enum Line<'a> {
    Blank,
    // the whole line, from its # on
    Note(&'a [u8]),
    Call(Call<'a>),
}
