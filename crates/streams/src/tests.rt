// Writing to writers and reading from readers that take or give little at a time, are interrupted, or fail.
use crate::source::Source;
use crate::writing::write_all;
use std::io;
use std::io::{ErrorKind, Read, Write};
use std::test::Fail;

// Takes, or gives, three bytes at a time. From the second on, 1,000 tries are interrupted, and the one numbered `fails` fails.
#[derive(Drop)]
struct Shaky<'a> {
    given: &'a [u8],
    taken: [u8; 16],
    count: usize,
    tries: u32,
    fails: u32,
}

impl Shaky<'_> {
    // Whether this try fails, and why.
    fn next_try(&mut self) -> io::Result<()> {
        self.tries = self.tries.wrapping_add(1);
        if self.tries == self.fails {
            return Err(io::Error::from(ErrorKind::NotConnected));
        }
        if self.tries >= 2 && self.tries <= 1001 {
            return Err(io::Error::from(ErrorKind::Interrupted));
        }
        Ok(())
    }
}

impl Read for Shaky<'_> {
    fn read(&mut self, buf: &mut [u8]) -> io::Result<usize> {
        self.next_try()?;
        let most = buf.len().min(3);
        self.given.read(&mut buf[..most])
    }
}

impl Write for Shaky<'_> {
    fn write(&mut self, buf: &[u8]) -> io::Result<usize> {
        self.next_try()?;
        let most = buf.len().min(3);
        for byte in &buf[..most] {
            if self.count < 16 {
                self.taken[self.count] = *byte;
                self.count += 1;
            }
        }
        Ok(most)
    }

    fn flush(&mut self) -> io::Result<()> {
        Ok(())
    }
}

const TEXT: &[u8] = b"ten bytes.";

fn one_that(fails: u32) -> Shaky<'static> {
    Shaky {
        given: TEXT,
        taken: [0; 16],
        count: 0,
        tries: 0,
        fails,
    }
}

// Why it failed, where it did.
fn kind_of<T: Drop>(told: io::Result<T>) -> Option<ErrorKind> {
    match told {
        Ok(_) => None,
        Err(why) => Some(why.kind()),
    }
}

#[test]
fn an_interrupted_write_is_tried_again(rt: HostRuntime) -> Result<(), Fail> {
    let mut out = one_that(0);
    write_all(&mut out, TEXT)?;
    assert_eq!(rt; out.tries, 1004);
    assert_eq!(rt; out.count, 10);
    assert_eq!(rt; &out.taken[..10], TEXT);
    Ok(())
}

#[test]
fn a_write_that_fails_is_told_as_it_is(rt: HostRuntime) {
    let mut out = one_that(1003);
    assert_eq!(rt;
        kind_of(write_all(&mut out, TEXT)),
        Some(ErrorKind::NotConnected)
    );
    assert_eq!(rt; out.count, 6);
    assert_eq!(rt; &out.taken[..6], &b"ten by"[..]);
}

#[test]
fn a_writer_that_takes_nothing_fails(rt: HostRuntime) {
    let mut held = [0; 4];
    let mut out = &mut held[..];
    assert_eq!(rt;
        kind_of(write_all(&mut out, TEXT)),
        Some(ErrorKind::WriteZero)
    );
    assert_eq!(rt; &held[..], &b"ten "[..]);
    let mut out = &mut held[..0];
    assert!(rt; write_all(&mut out, b"").is_ok());
}

#[test]
fn an_interrupted_read_is_tried_again(rt: HostRuntime) -> Result<(), Fail> {
    let mut room = [0; 16];
    let mut source = one_that(0);
    assert_eq!(rt; source.read_some(&mut room)?, 3);
    assert_eq!(rt; source.read_some(&mut room[3..])?, 3);
    assert_eq!(rt; source.tries, 1002);
    assert_eq!(rt; &room[..7], &b"ten by\0"[..]);
    Ok(())
}

#[test]
fn a_read_that_fails_is_told_as_it_is(rt: HostRuntime) -> Result<(), Fail> {
    let (mut room, mut other) = ([0; 16], [0; 4]);
    let mut source = one_that(1002);
    assert_eq!(rt; source.read_some(&mut room)?, 3);
    assert_eq!(rt;
        kind_of(source.read_some(&mut other)),
        Some(ErrorKind::NotConnected)
    );
    assert_eq!(rt; source.read_some(&mut room[3..])?, 3);
    assert_eq!(rt; &room[..7], &b"ten by\0"[..]);
    Ok(())
}
