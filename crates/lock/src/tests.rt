// The lock under the cache: a lone reader and a lone writer, upgrades, downgrades and leaves, passes and rows, and calls
// by task, and each refusal in the order of its questions and at its edge.
use crate::locks::Lock;
use crate::pass::{Kept, Pass, ReadPass, Reading, WritePass, Writing};
use cache::layer::Cache;
use calls::refusal::Refusal;
use lines::place::{Line, Place, Right};
use memory::interface::Memory;
use memory::refusal::Refusal as MemoryRefusal;
use queue::interface::Queue;
use queue::ring::Ring;
use std::test::Fail;
use words::array::Words;

// A closed lock with the number 1.
fn closed(rows: &mut [u32]) -> Lock<'_, Cache<Words>, Ring> {
    Lock::new(1, Cache::new(Words::new()), Ring::new(), rows)
}

#[test]
fn opened_cells(rt: HostRuntime) -> Result<(), Fail> {
    let mut rows = [0; 16];
    let mut lock = closed(&mut rows);
    lock.open(b"RW")?;
    let cells = [0, 0, 0, 1, 1, 0, 0];
    for (i, number) in cells.iter().enumerate() {
        assert_eq!(rt; lock.cell(i as u32)?, *number);
    }
    assert_eq!(rt; lock.cell(7), Err(Refusal::Memory(MemoryRefusal::Cell)));
    Ok(())
}

#[test]
fn lone_reader(rt: HostRuntime) -> Result<(), Fail> {
    let mut rows = [0; 16];
    let mut lock = closed(&mut rows);
    lock.open(b"R")?;
    lock.begin(1)?;
    for _ in 0..6 {
        lock.advance(1)?;
        assert_eq!(rt; lock.right(1)?, None);
    }
    lock.advance(1)?;
    assert_eq!(rt; lock.right(1)?, Some(Right::Reading));
    assert_eq!(rt; lock.account(1)?.cost, 7);
    Ok(())
}

#[test]
fn lone_writer(rt: HostRuntime) -> Result<(), Fail> {
    let mut rows = [0; 16];
    let mut lock = closed(&mut rows);
    lock.open(b"RW")?;
    lock.begin(2)?;
    for _ in 0..12 {
        lock.advance(2)?;
        assert_eq!(rt; lock.right(2)?, None);
    }
    lock.advance(2)?;
    assert_eq!(rt; lock.right(2)?, Some(Right::Writing));
    assert_eq!(rt; lock.account(2)?.cost, 10);
    Ok(())
}

// A task begins and goes on until it is inside.
fn enter(lock: &mut Lock<'_, Cache<Words>, Ring>, task: u32) -> Result<(), Refusal> {
    lock.begin(task)?;
    while_on_line(lock, task)
}

// At most 20 lines, which is enough where nobody else is in the way.
fn while_on_line(lock: &mut Lock<'_, Cache<Words>, Ring>, task: u32) -> Result<(), Refusal> {
    for _ in 0..20 {
        let Place::Next(_) = lock.place(task)? else {
            return Ok(());
        };
        lock.advance(task)?;
    }
    Ok(())
}

// What upgrade answers for a task that has the reading right: the number of its refusal, or 0.
fn upgrade(lock: &mut Lock<'_, Cache<Words>, Ring>, task: u32) -> u32 {
    match lock.take::<Reading>(task) {
        Ok(pass) => refused_back(lock.upgrade(pass)),
        Err(why) => why.number(),
    }
}

fn downgrade(lock: &mut Lock<'_, Cache<Words>, Ring>, task: u32) -> u32 {
    match lock.take::<Writing>(task) {
        Ok(pass) => refused_back(lock.downgrade(pass)),
        Err(why) => why.number(),
    }
}

fn leave_reading(lock: &mut Lock<'_, Cache<Words>, Ring>, task: u32) -> u32 {
    match lock.take::<Reading>(task) {
        Ok(pass) => refused_back(lock.leave(pass)),
        Err(why) => why.number(),
    }
}

fn leave_writing(lock: &mut Lock<'_, Cache<Words>, Ring>, task: u32) -> u32 {
    match lock.take::<Writing>(task) {
        Ok(pass) => refused_back(lock.leave(pass)),
        Err(why) => why.number(),
    }
}

// Reader 1 is granted its upgrade at cost 11, writes, downgrades and leaves.
#[test]
fn upgraded_reader(rt: HostRuntime) -> Result<(), Fail> {
    let mut rows = [0; 16];
    let mut lock = closed(&mut rows);
    lock.open(b"RW")?;
    enter(&mut lock, 1)?;
    assert_eq!(rt; upgrade(&mut lock, 1), 0);
    for _ in 0..4 {
        assert_eq!(rt; lock.right(1)?, None);
        lock.advance(1)?;
    }
    assert_eq!(rt; lock.right(1)?, Some(Right::Writing));
    assert_eq!(rt; lock.account(1)?.cost, 11);
    assert_eq!(rt; upgrade(&mut lock, 1), 26);
    assert_eq!(rt; downgrade(&mut lock, 1), 0);
    lock.advance(1)?;
    assert_eq!(rt; lock.right(1)?, Some(Right::Reading));
    assert_eq!(rt; leave_reading(&mut lock, 1), 0);
    while_on_line(&mut lock, 1)?;
    let account = lock.account(1)?;
    assert_eq!(rt; [account.u, account.g, account.finished], [1, 1, 1]);
    assert_eq!(rt; account.total, account.cost as u64);
    Ok(())
}

// Writer 2 downgrades and leaves, and then leaves once more as it came.
#[test]
fn downgraded_writer(rt: HostRuntime) -> Result<(), Fail> {
    let mut rows = [0; 16];
    let mut lock = closed(&mut rows);
    lock.open(b"RW")?;
    enter(&mut lock, 2)?;
    assert_eq!(rt; downgrade(&mut lock, 2), 0);
    while_on_line(&mut lock, 2)?;
    assert_eq!(rt; lock.right(2)?, Some(Right::Reading));
    assert_eq!(rt;
        [lock.cell(0)?, lock.cell(1)?, lock.cell(2)?, lock.cell(3)?],
        [1, 1, 1, 2]
    );
    assert_eq!(rt; leave_writing(&mut lock, 2), 26);
    assert_eq!(rt; leave_reading(&mut lock, 2), 0);
    assert_eq!(rt; lock.place(2)?, Place::Next(Line::L32p1));
    lock.advance(2)?;
    enter(&mut lock, 2)?;
    assert_eq!(rt; leave_writing(&mut lock, 2), 0);
    assert_eq!(rt; lock.place(2)?, Place::Next(Line::L8));
    while_on_line(&mut lock, 2)?;
    assert_eq!(rt; lock.account(2)?.finished, 2);
    Ok(())
}

// Task 1 before 27.5, task 2 before 16.1.
fn race(lock: &mut Lock<'_, Cache<Words>, Ring>) -> Result<(), Refusal> {
    lock.open(b"RR")?;
    enter(lock, 1)?;
    let _ = upgrade(lock, 1);
    for _ in 0..3 {
        lock.advance(1)?;
    }
    lock.begin(2)
}

#[test]
fn reader_first(rt: HostRuntime) -> Result<(), Fail> {
    let mut rows = [0; 16];
    let mut lock = closed(&mut rows);
    race(&mut lock)?;
    assert_eq!(rt; lock.place(1)?, Place::Next(Line::L27p5));
    assert_eq!(rt; lock.place(2)?, Place::Next(Line::L16p1));
    lock.advance(2)?;
    lock.advance(1)?;
    assert_eq!(rt; lock.right(1)?, Some(Right::Reading));
    Ok(())
}

#[test]
fn upgrade_first(rt: HostRuntime) -> Result<(), Fail> {
    let mut rows = [0; 16];
    let mut lock = closed(&mut rows);
    race(&mut lock)?;
    lock.advance(1)?;
    assert_eq!(rt; lock.right(1)?, Some(Right::Writing));
    while_on_line(&mut lock, 2)?;
    assert_eq!(rt; lock.place(2)?, Place::Next(Line::L22p2));
    Ok(())
}

// The 1,000th upgrade of an attempt is obeyed, and the next is not; each is turned down at once beside another reader.
#[test]
fn upgrades_of_an_attempt(rt: HostRuntime) -> Result<(), Fail> {
    let mut rows = [0; 16];
    let mut lock = closed(&mut rows);
    lock.open(b"RR")?;
    enter(&mut lock, 1)?;
    enter(&mut lock, 2)?;
    for _ in 0..1000 {
        assert_eq!(rt; upgrade(&mut lock, 1), 0);
    }
    assert_eq!(rt; lock.account(1)?.u, 1000);
    assert_eq!(rt; upgrade(&mut lock, 1), 29);
    // the pass that came back is still out
    assert_eq!(rt; leave_reading(&mut lock, 1), 25);
    Ok(())
}

// The 1,000,000th attempt is begun, and the next is not.
#[test]
fn finished_attempts(rt: HostRuntime) -> Result<(), Fail> {
    let mut rows = [0; 16];
    let mut lock = closed(&mut rows);
    lock.open(b"R")?;
    for _ in 0..1000000 {
        enter(&mut lock, 1)?;
        assert_eq!(rt; leave_reading(&mut lock, 1), 0);
        while_on_line(&mut lock, 1)?;
    }
    assert_eq!(rt; lock.account(1)?.finished, 1000000);
    assert_eq!(rt; lock.begin(1), Err(Refusal::Finished));
    Ok(())
}

// Calls with a pass ask for the lock first, then for its number, then whether the pass is out.
fn with_a_pass(lock: &mut Lock<'_, Cache<Words>, Ring>, number: u32, task: u32) -> [u32; 5] {
    let shown = WritePass::new(number, task);
    // there is no row 16, and 0 is no thickness
    let put = put(lock, &shown, 16, 0);
    shown.end();
    [
        refused_back(lock.upgrade(ReadPass::new(number, task))),
        refused_back(lock.downgrade(WritePass::new(number, task))),
        refused_back(lock.leave(ReadPass::new(number, task))),
        refused_back(lock.leave(WritePass::new(number, task))),
        put,
    ]
}

#[test]
fn refusals_of_a_pass(rt: HostRuntime) -> Result<(), Fail> {
    let mut rows = [0; 16];
    let mut lock = closed(&mut rows);
    assert_eq!(rt; with_a_pass(&mut lock, 2, 0), [10; 5]);
    lock.open(b"RW")?;
    assert_eq!(rt; with_a_pass(&mut lock, 2, 0), [27; 5]);
    assert_eq!(rt; with_a_pass(&mut lock, 1, 0), [28; 5]);
    assert_eq!(rt; with_a_pass(&mut lock, 1, 3), [28; 5]);
    enter(&mut lock, 1)?;
    assert_eq!(rt; with_a_pass(&mut lock, 1, 1), [28; 5]);
    Ok(())
}

// Open asks for the number of roles before it looks at one, and a closed lock refuses what follows.
#[test]
fn refusals_of_open(rt: HostRuntime) -> Result<(), Fail> {
    let mut rows = [0; 16];
    let mut lock = closed(&mut rows);
    assert_eq!(rt; lock.open(b""), Err(Refusal::Roles));
    assert_eq!(rt; lock.open(&[b'x'; 65]), Err(Refusal::Roles));
    assert_eq!(rt; lock.open(b"Rw"), Err(Refusal::Role));
    assert_eq!(rt; lock.begin(0), Err(Refusal::Shut));
    lock.open(&[b'W'; 64])?;
    assert_eq!(rt; lock.open(b""), Err(Refusal::Opened));
    Ok(())
}

#[test]
fn refusal_of_a_queue(rt: HostRuntime) -> Result<(), Fail> {
    let mut queue = Ring::new();
    queue.join(1)?;
    let mut rows = [0; 16];
    let mut lock = Lock::new(2, Words::new(), queue, &mut rows);
    assert_eq!(rt; lock.open(b"R"), Err(Refusal::Queued));
    Ok(())
}

#[test]
fn refusals_of_a_task(rt: HostRuntime) -> Result<(), Fail> {
    let mut rows = [0; 16];
    let mut lock = closed(&mut rows);
    lock.open(b"RW")?;
    assert_eq!(rt; lock.begin(0), Err(Refusal::NoTask));
    assert_eq!(rt; lock.advance(3), Err(Refusal::NoTask));
    assert_eq!(rt; lock.advance(1), Err(Refusal::OffLine));
    lock.begin(2)?;
    assert_eq!(rt; lock.begin(2), Err(Refusal::Busy));
    assert_eq!(rt; lock.place(2)?, Place::Next(Line::L0p2));
    Ok(())
}

// The pass of a read that is refused comes back, and only one pass is out at a time.
#[test]
fn passes_of_a_reader(rt: HostRuntime) -> Result<(), Fail> {
    let mut rows = [0; 16];
    let mut lock = closed(&mut rows);
    lock.open(b"RW")?;
    lock.begin(1)?;
    assert_eq!(rt; refusal_of(lock.take::<Reading>(1)), 24);
    for _ in 0..7 {
        lock.advance(1)?;
    }
    assert_eq!(rt; refusal_of(lock.take::<Reading>(3)), 20);
    assert_eq!(rt; refusal_of(lock.take::<Writing>(1)), 26);
    assert_eq!(rt; out_and_back(&mut lock), [25, 30, 0, 28]);
    Ok(())
}

// The number of the refusal, and 0 where a pass came, which then ends; only this crate can end one otherwise than by a call.
fn refusal_of<R>(taken: Result<Pass<R>, Refusal>) -> u32 {
    match taken {
        Ok(pass) => {
            pass.end();
            0
        }
        Err(why) => why.number(),
    }
}

// What a second take answers, a read of row 16, laying the pass back, and laying back one that is not out.
fn out_and_back(lock: &mut Lock<'_, Cache<Words>, Ring>) -> [u32; 4] {
    let Ok(pass) = lock.take::<Reading>(1) else {
        return [99; 4];
    };
    let second = refusal_of(lock.take::<Reading>(1));
    let row = match lock.read(&pass, 16) {
        Ok(_) => 0,
        Err(why) => why.number(),
    };
    let back = refused_back(lock.lay_back(pass));
    let forged = ReadPass::new(1, 1);
    [second, row, back, refused_back(lock.lay_back(forged))]
}

// The number of the refusal of laying back, and 0 where it was obeyed.
fn refused_back<R>(laid: Result<(), Kept<Pass<R>>>) -> u32 {
    match laid {
        Ok(()) => 0,
        Err(kept) => {
            let Kept { pass, why } = kept;
            pass.end();
            why.number()
        }
    }
}

// Another lock's number, then each answer that a row can give.
#[test]
fn rows_of_a_writer(rt: HostRuntime) -> Result<(), Fail> {
    let mut rows = [0, 1, 1000000, 1000001];
    let mut lock = closed(&mut rows);
    lock.open(b"W")?;
    lock.begin(1)?;
    for _ in 0..13 {
        lock.advance(1)?;
    }
    assert_eq!(rt;
        rows_read(&mut lock),
        [ABSENT, 1, 1000000, 32, 30, 27, 28, 0]
    );
    Ok(())
}

// What stands for a row that is read as absent: neither a thickness nor the number of a refusal.
const ABSENT: u32 = 4294967295;

fn row_of(lock: &Lock<'_, Cache<Words>, Ring>, pass: &WritePass, row: usize) -> u32 {
    match lock.read(pass, row) {
        Ok(Some(thickness)) => thickness,
        Ok(None) => ABSENT,
        Err(why) => why.number(),
    }
}

fn rows_read(lock: &mut Lock<'_, Cache<Words>, Ring>) -> [u32; 8] {
    let Ok(pass) = lock.take::<Writing>(1) else {
        return [99; 8];
    };
    let other = WritePass::new(2, 1);
    let nobody = WritePass::new(1, 2);
    let told = [
        row_of(lock, &pass, 0),
        row_of(lock, &pass, 1),
        row_of(lock, &pass, 2),
        row_of(lock, &pass, 3),
        row_of(lock, &pass, 4),
        row_of(lock, &other, 0),
        row_of(lock, &nobody, 0),
        refused_back(lock.lay_back(pass)),
    ];
    other.end();
    nobody.end();
    told
}

// The number of the refusal of a put, and 0 where it was obeyed.
fn put(
    lock: &mut Lock<'_, Cache<Words>, Ring>,
    pass: &WritePass,
    row: usize,
    thickness: u32,
) -> u32 {
    match lock.put(pass, row, thickness) {
        Ok(()) => 0,
        Err(why) => why.number(),
    }
}

// A refused put leaves the row, an obeyed one no other row, and the pass is still out after both.
#[test]
fn rows_of_a_put(rt: HostRuntime) -> Result<(), Fail> {
    let mut rows = [0, 7, 1000001, 8];
    let mut lock = closed(&mut rows);
    lock.open(b"W")?;
    enter(&mut lock, 1)?;
    assert_eq!(rt; thicknesses(&mut lock), [31, 31, 7, 0, 1, 0, 1000000]);
    assert_eq!(rt; edges(&mut lock), [30, 30, 27, 28, 0, 0]);
    assert_eq!(rt; rows, [0, 1000000, 1000001, 9]);
    Ok(())
}

// Row 1 after a thickness that is too small and one that is too large, and after the smallest and the largest.
fn thicknesses(lock: &mut Lock<'_, Cache<Words>, Ring>) -> [u32; 7] {
    let Ok(pass) = lock.take::<Writing>(1) else {
        return [99; 7];
    };
    let told = [
        put(lock, &pass, 1, 0),
        put(lock, &pass, 1, 1000001),
        row_of(lock, &pass, 1),
        put(lock, &pass, 1, 1),
        row_of(lock, &pass, 1),
        put(lock, &pass, 1, 1000000),
        row_of(lock, &pass, 1),
    ];
    let _ = refused_back(lock.lay_back(pass));
    told
}

// A row past the end with a thickness and without, another lock's pass and one that is not out, the last row, and laying back.
fn edges(lock: &mut Lock<'_, Cache<Words>, Ring>) -> [u32; 6] {
    let Ok(pass) = lock.take::<Writing>(1) else {
        return [99; 6];
    };
    let other = WritePass::new(2, 1);
    let nobody = WritePass::new(1, 2);
    let told = [
        put(lock, &pass, 4, 1),
        put(lock, &pass, 4, 0),
        put(lock, &other, 4, 0),
        put(lock, &nobody, 4, 0),
        put(lock, &pass, 3, 9),
        refused_back(lock.lay_back(pass)),
    ];
    other.end();
    nobody.end();
    told
}

// A reader reads, upgrades, puts, downgrades and leaves, by its number alone.
#[test]
fn calls_by_task(rt: HostRuntime) -> Result<(), Fail> {
    let mut rows = [0; 16];
    let mut lock = closed(&mut rows);
    lock.open(b"RW")?;
    enter(&mut lock, 1)?;
    assert_eq!(rt; lock.read_row(1, 5), Ok(None));
    lock.upgrade_task(1)?;
    assert_eq!(rt; lock.place(1)?, Place::Next(Line::L27p2));
    while_on_line(&mut lock, 1)?;
    assert_eq!(rt; lock.right(1)?, Some(Right::Writing));
    lock.put_row(1, 5, 1200)?;
    assert_eq!(rt; lock.read_row(1, 5), Ok(Some(1200)));
    assert_eq!(rt; lock.read_row(1, 4), Ok(None));
    lock.downgrade_task(1)?;
    assert_eq!(rt; lock.place(1)?, Place::Next(Line::Down28p2));
    while_on_line(&mut lock, 1)?;
    assert_eq!(rt; lock.right(1)?, Some(Right::Reading));
    assert_eq!(rt; lock.read_row(1, 5), Ok(Some(1200)));
    lock.leave_task(1)?;
    assert_eq!(rt; lock.place(1)?, Place::Next(Line::L9));
    while_on_line(&mut lock, 1)?;
    enter(&mut lock, 2)?;
    lock.leave_task(2)?;
    assert_eq!(rt; lock.place(2)?, Place::Next(Line::L8));
    Ok(())
}

// The number of a refusal, and 0 where the call was obeyed.
fn number_of(told: Result<(), Refusal>) -> u32 {
    match told {
        Ok(()) => 0,
        Err(why) => why.number(),
    }
}

// What the calls by task answer for a task without the writing right: upgrade, downgrade, put and leave. There is no row 16,
// and 0 is no thickness.
fn by_task(lock: &mut Lock<'_, Cache<Words>, Ring>, task: u32) -> [u32; 4] {
    [
        number_of(lock.upgrade_task(task)),
        number_of(lock.downgrade_task(task)),
        number_of(lock.put_row(task, 16, 0)),
        number_of(lock.leave_task(task)),
    ]
}

#[test]
fn refusals_by_task(rt: HostRuntime) -> Result<(), Fail> {
    let mut rows = [0; 16];
    let mut lock = closed(&mut rows);
    assert_eq!(rt; by_task(&mut lock, 1), [10; 4]);
    assert_eq!(rt; lock.read_row(1, 0), Err(Refusal::Shut));
    lock.open(b"RW")?;
    assert_eq!(rt; by_task(&mut lock, 3), [20; 4]);
    assert_eq!(rt; lock.read_row(0, 0), Err(Refusal::NoTask));
    assert_eq!(rt; by_task(&mut lock, 1), [24; 4]);
    assert_eq!(rt; lock.read_row(1, 0), Err(Refusal::Outside));
    enter(&mut lock, 2)?;
    assert_eq!(rt; number_of(lock.upgrade_task(2)), 26);
    assert_eq!(rt; number_of(lock.put_row(2, 16, 0)), 30);
    assert_eq!(rt; number_of(lock.put_row(2, 15, 0)), 31);
    // no pass is out after these: one can be taken, and with it out each call by task is refused
    assert_eq!(rt; refusal_of(lock.take::<Writing>(2)), 0);
    assert_eq!(rt; by_task(&mut lock, 2), [25; 4]);
    assert_eq!(rt; lock.read_row(2, 0), Err(Refusal::PassOut));
    Ok(())
}

// What a call by task refuses after its pass was taken: the pass is laid back, and so the task can leave.
#[test]
fn refused_with_a_pass(rt: HostRuntime) -> Result<(), Fail> {
    let mut rows = [0, 1000001];
    let mut lock = closed(&mut rows);
    lock.open(b"RR")?;
    enter(&mut lock, 1)?;
    enter(&mut lock, 2)?;
    assert_eq!(rt; lock.read_row(1, 1), Err(Refusal::Stored));
    assert_eq!(rt; lock.read_row(1, 2), Err(Refusal::NoRow));
    for _ in 0..1000 {
        lock.upgrade_task(1)?;
    }
    assert_eq!(rt; number_of(lock.upgrade_task(1)), 29);
    assert_eq!(rt; lock.account(1)?.u, 1000);
    assert_eq!(rt; number_of(lock.leave_task(1)), 0);
    Ok(())
}
