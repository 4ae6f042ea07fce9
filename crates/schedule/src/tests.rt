// Schedules with their listings, on all four pairs of memory and queue.
use crate::desk::Desk;
use crate::refusal::Refusal;
use crate::running::ROOM;
use crate::schedule::Schedule;
use listing::output::Output;
use std::process::Abort;
use std::test::Fail;

// What is left of the schedule has exactly this listing.
fn compare(
    rt: &impl Abort,
    schedule: &mut Schedule<'_, '_, '_>,
    listing: &[u8],
    buffer: &mut [u8],
) -> Result<(), Fail> {
    let mut rest = listing;
    for _ in 0..70000 {
        let Some(count) = schedule.line_bytes(buffer)? else {
            assert_eq!(rt; rest.len(), 0);
            return Ok(());
        };
        assert!(rt; count <= rest.len() && count <= buffer.len());
        assert_eq!(rt; &buffer[0..count], &rest[0..count]);
        rest = &rest[count..];
    }
    Err(Fail::new("the listing does not end"))
}

// The schedule has exactly this listing.
fn lists(rt: &impl Abort, input: &[u8], listing: &[u8]) -> Result<(), Fail> {
    let (mut a, mut b, mut c, mut d) = ([0; 16], [0; 16], [0; 16], [0; 16]);
    let mut desk = Desk::new(&mut a, &mut b, &mut c, &mut d);
    let mut schedule = Schedule::new(input, &mut desk);
    compare(rt, &mut schedule, listing, &mut [0; ROOM])
}

// What follows the letters of O has the same listing on each pair.
macro_rules! lists_on_each {
    ($rt:expr, $rest:literal, $listing:literal) => {{
        lists($rt, concat!("O w r ", $rest).as_bytes(), $listing)?;
        lists($rt, concat!("O w m ", $rest).as_bytes(), $listing)?;
        lists($rt, concat!("O p r ", $rest).as_bytes(), $listing)?;
        lists($rt, concat!("O p m ", $rest).as_bytes(), $listing)
    }};
}

#[test]
fn lone_reader(rt: HostRuntime) -> Result<(), Fail> {
    lists_on_each!(
        &rt,
        "R\nE 1\nS 1\nS 1\nS 1\nS 1\nS 1\nS 1\nS 1\nS 1\n",
        b"1 ok 1\n2 ok 161 1\n3 ok 170 2\n4 ok 180 3\n5 ok 190 4\n6 ok 200 4\n7 ok 210 5\n8 ok 221 6\n9 ok r 7\n10 no 23\n"
    )
}

#[test]
fn lone_writer(rt: HostRuntime) -> Result<(), Fail> {
    lists_on_each!(
        &rt,
        "RW\nE 2\nS 2\nS 2\nS 2\nS 2\nS 2\nS 2\nS 2\nS 2\nS 2\nS 2\nS 2\nS 2\nS 2\n",
        b"1 ok 2\n2 ok 2 0\n3 ok 10 0\n4 ok 20 1\n5 ok 30 1\n6 ok 40 2\n7 ok 90 3\n8 ok 100 4\n9 ok 110 4\n10 ok 120 5\n11 ok 130 6\n12 ok 140 7\n13 ok 150 8\n14 ok 60 9\n15 ok w 10\n"
    )
}

// The second writer waits at 0.2 until the first has left, and a reader that meets a writer waits at 22.
#[test]
fn waiting(rt: HostRuntime) -> Result<(), Fail> {
    lists_on_each!(
        &rt,
        "WWR\nE 1\nE 2\nS 2\nS 1\nS 1\nS 1\nS 1\nS 1\nS 1\nS 1\nS 1\nS 1\nS 1\nS 1\nS 1\nS 1\nE 3\nS 3\nS 3\nS 3\nS 3\nS 3\nS 3\nS 3\n",
        b"1 ok 3\n2 ok 2 0\n3 ok 2 0\n4 ok 2 0\n5 ok 10 0\n6 ok 20 1\n7 ok 30 1\n8 ok 40 2\n9 ok 90 3\n10 ok 100 4\n11 ok 110 4\n12 ok 120 5\n13 ok 130 6\n14 ok 140 7\n15 ok 150 8\n16 ok 60 9\n17 ok w 10\n18 ok 161 1\n19 ok 170 2\n20 ok 180 3\n21 ok 190 4\n22 ok 210 4\n23 ok 220 4\n24 ok 220 5\n25 ok 220 5\n"
    )
}

// A reader alone is granted the writing right at cost 11, gives it up again, and leaves.
#[test]
fn upgrade_and_downgrade(rt: HostRuntime) -> Result<(), Fail> {
    lists_on_each!(
        &rt,
        "RW\nE 1\nS 1\nS 1\nS 1\nS 1\nS 1\nS 1\nS 1\nU 1\nS 1\nS 1\nS 1\nS 1\nR 1 15\nD 1\nS 1\nR 1 16\nL 1\nS 1\nS 1\nS 1\nS 1\nE 1\n",
        b"1 ok 2\n2 ok 161 1\n3 ok 170 2\n4 ok 180 3\n5 ok 190 4\n6 ok 200 4\n7 ok 210 5\n8 ok 221 6\n9 ok r 7\n10 ok 272 8\n11 ok 273 9\n12 ok 274 9\n13 ok 275 10\n14 ok w 11\n15 ok w 11 absent\n16 ok 282 12\n17 ok r 13\n18 no 30\n19 ok 90 14\n20 ok 100 14\n21 ok 110 14\n22 ok 120 15\n23 ok - 16\n24 ok 161 1\n"
    )
}

// The letters that need a pass: of a task at rest, of none, and of a reader inside and on its way.
#[test]
fn passes(rt: HostRuntime) -> Result<(), Fail> {
    lists(&rt, b"U 1\nR 1 0\n", b"1 no 10\n2 no 10\n")?;
    lists_on_each!(
        &rt,
        "RW\nU 1\nD 1\nL 1\nR 1 0\nU 3\nR 0 0\n",
        b"1 ok 2\n2 no 24\n3 no 24\n4 no 24\n5 no 24\n6 no 20\n7 no 20\n"
    )?;
    lists_on_each!(
        &rt,
        "R\nE 1\nS 1\nS 1\nS 1\nS 1\nS 1\nS 1\nS 1\nD 1\nR 1 16\nR 1 4294967295\nR 1 15\nU 1\nL 1\nR 1 0\n",
        b"1 ok 1\n2 ok 161 1\n3 ok 170 2\n4 ok 180 3\n5 ok 190 4\n6 ok 200 4\n7 ok 210 5\n8 ok 221 6\n9 ok r 7\n10 no 26\n11 no 30\n12 no 30\n13 ok r 7 absent\n14 ok 272 8\n15 no 24\n16 no 24\n"
    )
}

// A writer puts the smallest and the largest thickness into the first row and the last, and leaves; then a reader
// finds them, and may put none.
#[test]
fn puts_of_a_writer(rt: HostRuntime) -> Result<(), Fail> {
    lists(
        &rt,
        b"P 1 0 5\nP 0 99 0\nP 1 0\n",
        b"1 no 10\n2 no 10\n3 no 41\n",
    )?;
    lists_on_each!(
        &rt,
        "RW\nE 2\nS 2\nS 2\nS 2\nS 2\nS 2\nS 2\nS 2\nS 2\nS 2\nS 2\nS 2\nS 2\nS 2\nP 2 0 0\nP 2 0 1000001\nR 2 0\nP 2 0 1\nR 2 0\nP 2 15 1000000\nP 2 16 0\nP 2 4294967295 4294967295\nP 1 0 5\nP 3 0 5\nL 2\nP 2 0 5\nS 2\nS 2\nE 1\nS 1\nS 1\nS 1\nS 1\nS 1\nS 1\nS 1\nR 1 0\nR 1 1\nR 1 15\nP 1 0 5\nP 1 16 0\n",
        b"1 ok 2\n2 ok 2 0\n3 ok 10 0\n4 ok 20 1\n5 ok 30 1\n6 ok 40 2\n7 ok 90 3\n8 ok 100 4\n9 ok 110 4\n10 ok 120 5\n11 ok 130 6\n12 ok 140 7\n13 ok 150 8\n14 ok 60 9\n15 ok w 10\n16 no 31\n17 no 31\n18 ok w 10 absent\n19 ok w 10\n20 ok w 10 1\n21 ok w 10\n22 no 30\n23 no 30\n24 no 24\n25 no 20\n26 ok 80 11\n27 no 24\n28 ok 321 12\n29 ok - 12\n30 ok 161 1\n31 ok 170 2\n32 ok 180 3\n33 ok 190 4\n34 ok 200 4\n35 ok 210 5\n36 ok 221 6\n37 ok r 7\n38 ok r 7 1\n39 ok r 7 absent\n40 ok r 7 1000000\n41 no 26\n42 no 26\n"
    )
}

// A reader may put while it is upgraded, and neither before nor after.
#[test]
fn puts_of_an_upgraded_reader(rt: HostRuntime) -> Result<(), Fail> {
    lists_on_each!(
        &rt,
        "R\nE 1\nS 1\nS 1\nS 1\nS 1\nS 1\nS 1\nS 1\nP 1 3 4200\nU 1\nS 1\nS 1\nS 1\nS 1\nP 1 3 4200\nR 1 3\nD 1\nP 1 3 7\nS 1\nP 1 3 7\nR 1 3\n",
        b"1 ok 1\n2 ok 161 1\n3 ok 170 2\n4 ok 180 3\n5 ok 190 4\n6 ok 200 4\n7 ok 210 5\n8 ok 221 6\n9 ok r 7\n10 no 26\n11 ok 272 8\n12 ok 273 9\n13 ok 274 9\n14 ok 275 10\n15 ok w 11\n16 ok w 11\n17 ok w 11 4200\n18 ok 282 12\n19 no 24\n20 ok r 13\n21 no 26\n22 ok r 13 4200\n"
    )
}

#[test]
fn tasks_on_a_packed_memory(rt: HostRuntime) -> Result<(), Fail> {
    lists(
        &rt,
        b"O p r RRRRRRRRRRRRRRRR\nO p m RRRRRRRRRRRRRRR\nE 15\n",
        b"1 no 14\n2 ok 15\n3 ok 161 1\n",
    )
}

#[test]
fn refusals(rt: HostRuntime) -> Result<(), Fail> {
    lists(&rt, b"", b"")?;
    lists(&rt, b"\n\n# \xff\r", b"3 # \xff\r\n")?;
    lists(
        &rt,
        b"E 0\nS 99\nO w r RX\nO p m R\nO w r R\nO w r",
        b"1 no 10\n2 no 10\n3 no 13\n4 ok 1\n5 no 11\n6 no 41\n",
    )?;
    lists(
        &rt,
        b"O w r R\nE 2\nE 1\nE 1\nS 2\nu 1\nO x r R\n",
        b"1 ok 1\n2 no 20\n3 ok 161 1\n4 no 21\n5 no 20\n6 no 40\n7 no 41\n",
    )?;
    lists(
        &rt,
        b"E 4294967296\nE 4294967295\nE 00\nE\n",
        b"1 no 42\n2 no 10\n3 no 41\n4 no 41\n",
    )
}

#[test]
fn lengths(rt: HostRuntime) -> Result<(), Fail> {
    lists(&rt, &[b'\n'; 65536], b"")?;
    lists(&rt, &[b'\n'; 65537], b"0 no 43\n")
}

const TEXT: &[u8] = b"E 1\nO w m R\n\nE 1\n# rib 3\nS 1\nS 1\n";

const LISTING: &[u8] = b"1 no 10\n2 ok 1\n4 ok 161 1\n5 # rib 3\n6 ok 170 2\n7 ok 180 3\n";

// What is left of the listing is printed, and a second print has nothing left.
fn prints(
    rt: &impl Abort,
    schedule: &mut Schedule<'_, '_, '_>,
    listing: &[u8],
) -> Result<(), Fail> {
    let mut held = [b'.'; 64];
    let mut out = Output::new(&mut held[..]);
    schedule.print(&mut out)?;
    schedule.print(&mut out)?;
    let count = listing.len();
    assert!(rt; count < 64);
    assert_eq!(rt; &held[..count], listing);
    assert_eq!(rt; held[count], b'.');
    Ok(())
}

// So many lines are done one by one, and the listing from its byte `at` on is printed.
fn prints_from(rt: &impl Abort, lines: u32, at: usize) -> Result<(), Fail> {
    let (mut a, mut b, mut c, mut d) = ([0; 16], [0; 16], [0; 16], [0; 16]);
    let mut desk = Desk::new(&mut a, &mut b, &mut c, &mut d);
    let mut schedule = Schedule::new(TEXT, &mut desk);
    let mut buffer = [0; ROOM];
    for _ in 0..lines {
        assert!(rt; schedule.line_bytes(&mut buffer)?.is_some());
    }
    assert!(rt; at <= LISTING.len());
    prints(rt, &mut schedule, &LISTING[at..])?;
    assert_eq!(rt; schedule.line_bytes(&mut buffer)?, None);
    Ok(())
}

// Before any line, before and behind the O that is obeyed, at a blank line, at a note, and at the end.
#[test]
fn the_rest_of_a_schedule_is_printed(rt: HostRuntime) -> Result<(), Fail> {
    for (lines, at) in [
        (0, 0),
        (1, 8),
        (2, 15),
        (3, 15),
        (4, 26),
        (5, 36),
        (6, 47),
        (7, 58),
    ] {
        prints_from(&rt, lines, at)?;
    }
    Ok(())
}

// Each schedule goes on where the one before has left the lock, and may open neither it nor another.
#[test]
fn schedules_at_one_desk(rt: HostRuntime) -> Result<(), Fail> {
    let (mut a, mut b, mut c, mut d) = ([0; 16], [0; 16], [0; 16], [0; 16]);
    let mut desk = Desk::new(&mut a, &mut b, &mut c, &mut d);
    let mut buffer = [0; ROOM];
    compare(
        &rt,
        &mut Schedule::new(TEXT, &mut desk),
        LISTING,
        &mut buffer,
    )?;
    compare(
        &rt,
        &mut Schedule::new(b"O w m R\nS 1\n", &mut desk),
        b"1 no 11\n2 ok 190 4\n",
        &mut buffer,
    )?;
    prints(
        &rt,
        &mut Schedule::new(b"S 1\nO p r R\nS 1\n", &mut desk),
        b"1 ok 200 4\n2 no 11\n3 ok 210 5\n",
    )
}

// It is told by a line of its own, or by a print, and by no other then.
#[test]
fn a_long_input_is_told_once(rt: HostRuntime) -> Result<(), Fail> {
    let (mut a, mut b, mut c, mut d) = ([0; 16], [0; 16], [0; 16], [0; 16]);
    let mut desk = Desk::new(&mut a, &mut b, &mut c, &mut d);
    let long = [b'\n'; 65537];
    let mut buffer = [0; ROOM];
    let mut printed = Schedule::new(&long, &mut desk);
    prints(&rt, &mut printed, b"0 no 43\n")?;
    compare(&rt, &mut printed, b"", &mut buffer)?;
    let mut compared = Schedule::new(&long, &mut desk);
    compare(&rt, &mut compared, b"0 no 43\n", &mut buffer)?;
    prints(&rt, &mut compared, b"")
}

// Nothing is done then, and the line is told at the next call.
#[test]
fn a_line_is_refused_where_there_is_no_room_for_any(rt: HostRuntime) -> Result<(), Fail> {
    let (mut a, mut b, mut c, mut d) = ([0; 16], [0; 16], [0; 16], [0; 16]);
    let mut desk = Desk::new(&mut a, &mut b, &mut c, &mut d);
    let mut schedule = Schedule::new(b"O p r R\n", &mut desk);
    let room = Refusal::Listing(listing::refusal::Refusal::Room);
    assert_eq!(rt; room.number(), 39);
    assert_eq!(rt; schedule.line_bytes(&mut [0; 65551]), Err(room));
    prints(&rt, &mut schedule, b"1 ok 1\n")
}
