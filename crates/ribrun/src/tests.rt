// Reading an input from readers that give little at a time, are interrupted, or fail, or where there is too little room for
// it, and writing a listing: a long note, and where there is too little room.
use crate::list;
use crate::reading::read_input;
use listing::output::Output;
use std::io;
use std::io::{ErrorKind, Read};
use std::test::Fail;

// Gives its text three bytes at a time. The second read is interrupted, and the one numbered `fails` fails.
#[derive(Drop)]
struct Shaky<'a> {
    text: &'a [u8],
    reads: u32,
    fails: u32,
}

impl Read for Shaky<'_> {
    fn read(&mut self, buf: &mut [u8]) -> io::Result<usize> {
        self.reads = self.reads.wrapping_add(1);
        if self.reads == 2 {
            return Err(io::Error::from(ErrorKind::Interrupted));
        }
        if self.reads == self.fails {
            return Err(io::Error::from(ErrorKind::NotConnected));
        }
        let most = buf.len().min(3);
        self.text.read(&mut buf[..most])
    }
}

const TEXT: &[u8] = b"O w r R\nE 1\n";

const LISTING: &[u8] = b"1 ok 1\n2 ok 161 1\n";

fn reader_that(fails: u32) -> Shaky<'static> {
    Shaky {
        text: TEXT,
        reads: 0,
        fails,
    }
}

// Why it failed, where it did.
fn kind_of(told: io::Result<usize>) -> Option<ErrorKind> {
    match told {
        Ok(_) => None,
        Err(why) => Some(why.kind()),
    }
}

#[test]
fn an_interrupted_read_is_tried_again(rt: HostRuntime) -> Result<(), Fail> {
    let mut input = Vec::new(rt.alloc());
    assert_eq!(rt; read_input(&mut reader_that(0), &mut input)?, 12);
    assert_eq!(rt; input.as_slice(), TEXT);
    Ok(())
}

#[test]
fn a_read_that_fails_is_told_as_it_is(rt: HostRuntime) {
    for (fails, read) in [(1, 0), (3, 3), (5, 9)] {
        let mut input = Vec::new(rt.alloc());
        assert_eq!(rt;
            kind_of(read_input(&mut reader_that(fails), &mut input)),
            Some(ErrorKind::NotConnected)
        );
        assert_eq!(rt; input.as_slice(), &TEXT[..read]);
    }
}

#[test]
fn an_input_is_read_no_further_than_it_says_something(rt: HostRuntime) -> Result<(), Fail> {
    let long = [b'#'; 70_000];
    let mut reader = &long[..];
    let mut input = Vec::new(rt.alloc());
    assert_eq!(rt; read_input(&mut reader, &mut input)?, 69_632);
    assert_eq!(rt; reader.len(), 368);
    let mut input = Vec::new(rt.alloc());
    assert_eq!(rt; read_input(&mut &long[..65_536], &mut input)?, 65_536);
    assert_eq!(rt; input.len(), 65_536);
    Ok(())
}

#[test]
fn an_input_for_which_there_is_no_room_is_told(rt: HostRuntime) {
    let mut held = [0; 4];
    let mut room = &mut held[..];
    assert_eq!(rt;
        kind_of(read_input(&mut reader_that(0), &mut room)),
        Some(ErrorKind::WriteZero)
    );
    assert_eq!(rt; &held[..], &TEXT[..4]);
}

// What is not written is not held either: a flush of it would find no room.
#[test]
fn a_write_that_fails_leaves_a_front_of_the_listing(rt: HostRuntime) {
    for room in 0..LISTING.len() {
        let mut held = [0; 32];
        let mut out = Output::new(&mut held[..room]);
        assert!(rt; list(TEXT, &mut out).is_err());
        assert!(rt; out.flush().is_ok());
        assert_eq!(rt; &held[..room], &LISTING[..room]);
    }
}

#[test]
fn a_listing_for_which_there_is_room_is_written(rt: HostRuntime) -> Result<(), Fail> {
    let mut held = [0; 18];
    list(TEXT, &mut Output::new(&mut held[..]))?;
    assert_eq!(rt; &held[..], LISTING);
    Ok(())
}

// An output has no room for so long a note: it goes from the input to what takes the listing.
#[test]
fn a_long_note_is_listed_whole(rt: HostRuntime) -> Result<(), Fail> {
    let mut input = [b'#'; 5_013];
    input[..8].copy_from_slice(b"O w r R\n");
    input[5_008..].copy_from_slice(b"\nE 1\n");
    let mut held = [b'.'; 5_022];
    list(&input, &mut Output::new(&mut held[..]))?;
    assert_eq!(rt; &held[..9], &b"1 ok 1\n2 "[..]);
    assert_eq!(rt; &held[9..5_009], &input[8..5_008]);
    assert_eq!(rt; &held[5_009..], &b"\n3 ok 161 1\n."[..]);
    Ok(())
}
