// Lines on the edge of each question, and how inputs fall into lines.
use crate::call::{Call, Line, MemoryKind, QueueKind};
use crate::lines::fits;
use crate::parse::parse_line;
use crate::reader::Reader;
use crate::refusal::Refusal;
use std::process::Abort;

// The number of the line's refusal, or 0.
fn refused(text: &[u8]) -> u32 {
    match parse_line(text) {
        Ok(_) => 0,
        Err(why) => why.number(),
    }
}

fn all_refused(rt: &impl Abort, lines: &[&[u8]], number: u32) {
    for line in lines {
        assert_eq!(rt; refused(line), number);
    }
}

#[test]
fn letters(rt: HostRuntime) {
    all_refused(
        &rt,
        &[b"e 1", b" ", b"   ", b"\r", b" E 1", b"u 1", b"p 1 2 3"],
        40,
    );
}

#[test]
fn fields(rt: HostRuntime) {
    all_refused(
        &rt,
        &[
            b"E", b"E ", b"E1", b"EE 1", b"E\t1", b"E  1", b"E 1 ", b"E 1 2",
        ],
        41,
    );
    all_refused(
        &rt,
        &[
            b"Ow r R",
            b"O w r",
            b"O w r ",
            b"O x r R",
            b"O w x R",
            b"O w r R W",
        ],
        41,
    );
}

#[test]
fn numerals(rt: HostRuntime) {
    all_refused(
        &rt,
        &[b"E 00", b"E 01", b"E +1", b"E -1", b"E 1.0", b"E 1\r"],
        41,
    );
    all_refused(&rt, &[b"S 4294967296", b"S 99999999999999999999999"], 42);
    all_refused(
        &rt,
        &[
            b"E 99999999999 01",
            b"E 0999999999999999999999999",
            b"S 4294967296x",
            b"S 4294967296 ",
            b"E 0x",
            b"E 0 ",
            b"R 0 00",
            b"R 4294967296 x",
        ],
        41,
    );
    all_refused(
        &rt,
        &[
            b"U",
            b"D 1 2",
            b"L ",
            b"R 1",
            b"R 1 2 3",
            b"R 99999999999 01",
        ],
        41,
    );
    all_refused(
        &rt,
        &[b"U 4294967296", b"R 4294967296 1", b"R 1 4294967296"],
        42,
    );
}

#[test]
fn three_numerals(rt: HostRuntime) {
    all_refused(
        &rt,
        &[
            b"P",
            b"P 1",
            b"P 1 2",
            b"P 1 2 ",
            b"P1 2 3",
            b"P 1 2  3",
            b"P 1 2 3 4",
        ],
        41,
    );
    all_refused(
        &rt,
        &[
            b"P 01 2 3",
            b"P 1 00 3",
            b"P 1 2 x",
            b"P 99999999999 99999999999 03",
            b"P 1 99999999999 +3",
        ],
        41,
    );
    all_refused(
        &rt,
        &[
            b"P 4294967296 2 3",
            b"P 1 4294967296 3",
            b"P 1 2 4294967296",
        ],
        42,
    );
}

#[test]
fn accepted(rt: HostRuntime) {
    assert_eq!(rt; parse_line(b""), Ok(Line::Blank));
    assert_eq!(rt; parse_line(b"#"), Ok(Line::Note(b"#")));
    assert_eq!(rt; parse_line(b"# E 01 "), Ok(Line::Note(b"# E 01 ")));
    assert_eq!(rt; parse_line(b"E 0"), Ok(Line::Call(Call::Begin(0))));
    assert_eq!(rt;
        parse_line(b"S 4294967295"),
        Ok(Line::Call(Call::Advance(4294967295)))
    );
    assert_eq!(rt; parse_line(b"U 1"), Ok(Line::Call(Call::Upgrade(1))));
    assert_eq!(rt; parse_line(b"D 2"), Ok(Line::Call(Call::Downgrade(2))));
    assert_eq!(rt; parse_line(b"L 3"), Ok(Line::Call(Call::Leave(3))));
    assert_eq!(rt; parse_line(b"R 4 15"), Ok(Line::Call(Call::Read(4, 15))));
    assert_eq!(rt; parse_line(b"R 0 0"), Ok(Line::Call(Call::Read(0, 0))));
    assert_eq!(rt;
        parse_line(b"P 1 3 4200"),
        Ok(Line::Call(Call::Put(1, 3, 4200)))
    );
    assert_eq!(rt;
        parse_line(b"P 0 4294967295 4294967295"),
        Ok(Line::Call(Call::Put(0, 4294967295, 4294967295)))
    );
    let opened = Call::Open(MemoryKind::Words, QueueKind::Ring, b"x\r#");
    assert_eq!(rt; parse_line(b"O w r x\r#"), Ok(Line::Call(opened)));
}

#[test]
fn lines(rt: HostRuntime) {
    let mut reader = Reader::new(b"a\n\nbc");
    assert_eq!(rt; reader.next_line(), Some(b"a".as_slice()));
    assert_eq!(rt; reader.next_line(), Some(b"".as_slice()));
    assert_eq!(rt; reader.number(), 2);
    assert_eq!(rt; reader.next_line(), Some(b"bc".as_slice()));
    assert_eq!(rt; reader.next_line(), None);
    assert_eq!(rt; reader.number(), 3);
    let mut reader = Reader::new(b"\n");
    assert_eq!(rt; reader.next_line(), Some(b"".as_slice()));
    assert_eq!(rt; reader.next_line(), None);
}

// A line's end is looked for among 16 bytes at first: the last of them, one past them, and further on.
#[test]
fn long_lines(rt: HostRuntime) {
    let mut reader = Reader::new(
        b"0123456789abcde\n0123456789abcdef\n0123456789abcdef0123456789abcdef",
    );
    assert_eq!(rt; reader.next_line(), Some(b"0123456789abcde".as_slice()));
    assert_eq!(rt; reader.next_line(), Some(b"0123456789abcdef".as_slice()));
    assert_eq!(rt;
        reader.next_line(),
        Some(b"0123456789abcdef0123456789abcdef".as_slice())
    );
    assert_eq!(rt; reader.next_line(), None);
    assert_eq!(rt; reader.number(), 3);
}

#[test]
fn longest(rt: HostRuntime) {
    let input = [b'#'; 65537];
    assert_eq!(rt; fits(&input[0..65536]), Ok(()));
    assert_eq!(rt; fits(&input), Err(Refusal::Length));
}
