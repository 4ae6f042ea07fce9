// Lines as they are printed, buffers that have just room enough or a byte too little, and lines on their way to a sink.
use crate::answer::{Answer, Place};
use crate::output::Output;
use crate::refusal::Refusal;
use crate::write::{put_answer, put_note};
use std::io;
use std::io::ErrorKind;
use std::process::Abort;
use std::test::Fail;

fn shows(rt: &impl Abort, number: u32, answer: Answer, line: &[u8]) -> Result<(), Fail> {
    let mut out = [b'.'; 64];
    let count = put_answer(&mut out, number, answer)?;
    assert!(rt; count < 64);
    assert_eq!(rt; &out[0..count], line);
    assert_eq!(rt; out[count], b'.');
    Ok(())
}

#[test]
fn answers(rt: HostRuntime) -> Result<(), Fail> {
    shows(&rt, 1, Answer::Opened(2), b"1 ok 2\n")?;
    shows(&rt, 3, Answer::Moved(Place::At(161), 1), b"3 ok 161 1\n")?;
    shows(&rt, 10, Answer::Moved(Place::Rest, 0), b"10 ok - 0\n")?;
    shows(
        &rt,
        65536,
        Answer::Moved(Place::Reading, 19),
        b"65536 ok r 19\n",
    )?;
    shows(
        &rt,
        7,
        Answer::Moved(Place::Writing, 4294967295),
        b"7 ok w 4294967295\n",
    )?;
    shows(
        &rt,
        8,
        Answer::Row(Place::Reading, 7, None),
        b"8 ok r 7 absent\n",
    )?;
    shows(
        &rt,
        9,
        Answer::Row(Place::Writing, 10, Some(1000000)),
        b"9 ok w 10 1000000\n",
    )?;
    shows(&rt, 0, Answer::Refused(43), b"0 no 43\n")
}

// Each count of digits, with a 0 at the front of each pair.
#[test]
fn digits(rt: HostRuntime) -> Result<(), Fail> {
    shows(&rt, 9, Answer::Opened(10), b"9 ok 10\n")?;
    shows(&rt, 99, Answer::Opened(100), b"99 ok 100\n")?;
    shows(&rt, 909, Answer::Opened(1001), b"909 ok 1001\n")?;
    shows(&rt, 9999, Answer::Opened(10000), b"9999 ok 10000\n")?;
    shows(&rt, 12345, Answer::Opened(100902), b"12345 ok 100902\n")?;
    shows(
        &rt,
        1000203,
        Answer::Opened(98765432),
        b"1000203 ok 98765432\n",
    )?;
    shows(
        &rt,
        100020003,
        Answer::Opened(1234567890),
        b"100020003 ok 1234567890\n",
    )
}

#[test]
fn just_room_for_an_answer(rt: HostRuntime) {
    let mut out = [b'.'; 64];
    let moved = Answer::Moved(Place::At(17), 1);
    assert_eq!(rt; put_answer(&mut out[..63], 3, moved), Err(Refusal::Room));
    assert_eq!(rt; &out[..9], b".........".as_slice());
    assert_eq!(rt; put_answer(&mut out, 13, Answer::Refused(1)), Ok(8));
    assert_eq!(rt; &out[..9], b"13 no 1\n.".as_slice());
}

#[test]
fn just_room(rt: HostRuntime) {
    let mut out = [b'.'; 10];
    assert_eq!(rt; put_note(&mut out, 5, b"# rib 3"), Ok(10));
    assert_eq!(rt; &out[0..10], b"5 # rib 3\n".as_slice());
    assert_eq!(rt; put_note(&mut out, 6, b""), Ok(3));
    assert_eq!(rt; &out[0..10], b"6 \n rib 3\n".as_slice());
}

#[test]
fn too_little(rt: HostRuntime) {
    let mut out = [b'.'; 9];
    assert_eq!(rt; put_note(&mut out, 5, b"# rib 3"), Err(Refusal::Room));
    assert_eq!(rt; &out[..9], b".........".as_slice());
}

#[test]
fn lines_are_written_once_they_are_flushed(rt: HostRuntime) -> Result<(), Fail> {
    let mut held = [b'.'; 30];
    let mut out = Output::new(&mut held[..]);
    out.put_answer(1, Answer::Opened(2))?;
    out.put_note(2, b"# rib 3")?;
    out.put_answer(3, Answer::Refused(20))?;
    out.flush()?;
    out.flush()?;
    assert_eq!(rt; out.into_sink().len(), 5);
    assert_eq!(rt; &held[..], b"1 ok 2\n2 # rib 3\n3 no 20\n.....".as_slice());
    Ok(())
}

#[test]
fn what_is_held_is_written_once_it_fills_the_buffer(rt: HostRuntime) -> Result<(), Fail> {
    let mut held = [b'.'; 4100];
    let mut out = Output::new(&mut held[..]);
    for _ in 0..578 {
        out.put_answer(7, Answer::Opened(1))?;
    }
    let left = out.into_sink();
    assert_eq!(rt; left.len(), 4100 - 4039);
    assert_eq!(rt; &held[4025..4040], b"7 ok 1\n7 ok 1\n.".as_slice());
    Ok(())
}

#[test]
fn a_note_that_is_longer_than_the_buffer(rt: HostRuntime) -> Result<(), Fail> {
    let note = [b'#'; 5000];
    let mut held = [b'.'; 5020];
    let mut out = Output::new(&mut held[..]);
    out.put_answer(1, Answer::Opened(2))?;
    out.put_note(2, &note)?;
    out.put_answer(3, Answer::Refused(24))?;
    out.flush()?;
    assert_eq!(rt; &held[..11], b"1 ok 2\n2 ##".as_slice());
    assert_eq!(rt; &held[5007..], b"##\n3 no 24\n..".as_slice());
    Ok(())
}

// Why it failed, where it did.
fn kind_of(told: io::Result<()>) -> Option<ErrorKind> {
    match told {
        Ok(_) => None,
        Err(why) => Some(why.kind()),
    }
}

#[test]
fn a_sink_that_is_full_is_told(rt: HostRuntime) -> Result<(), Fail> {
    let mut held = [b'.'; 9];
    let mut out = Output::new(&mut held[..]);
    out.put_answer(1, Answer::Opened(2))?;
    out.put_answer(2, Answer::Opened(3))?;
    assert_eq!(rt; kind_of(out.flush()), Some(ErrorKind::WriteZero));
    assert!(rt; out.flush().is_ok());
    assert_eq!(rt;
        kind_of(out.put_note(3, &[b'#'; 5000])),
        Some(ErrorKind::WriteZero)
    );
    assert_eq!(rt; &held[..], b"1 ok 2\n2 ".as_slice());
    Ok(())
}

#[test]
fn an_output_that_is_full_refuses_a_line_until_it_is_flushed(rt: HostRuntime) -> Result<(), Fail> {
    let mut held = [b'.'; 4100];
    let mut out = Output::new(&mut held[..]);
    for _ in 0..577 {
        assert!(rt; !out.is_full());
        assert_eq!(rt; out.hold_answer(7, Answer::Opened(1)), Ok(()));
    }
    assert!(rt; out.is_full());
    assert_eq!(rt; out.hold_answer(7, Answer::Opened(1)), Err(Refusal::Room));
    assert_eq!(rt; out.hold_note(7, b"#"), Err(Refusal::Room));
    out.flush()?;
    assert_eq!(rt; out.hold_note(8, &[b'#'; 4096]), Err(Refusal::Room));
    assert_eq!(rt; out.hold_note(8, b"#"), Ok(()));
    out.flush()?;
    assert_eq!(rt; &held[4025..4045], b"7 ok 1\n7 ok 1\n8 #\n..".as_slice());
    Ok(())
}
