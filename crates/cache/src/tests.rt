// Examples at the edges, each asked through the interface: what an operation
// costs and who holds copies after it, what is refused with nothing changed,
// and the numbers that no proof ties, as the limit of the cache layer.
use crate::layer::Cache;
use memory::interface::Memory;
use memory::operation::{Operation, Reply, Step};
use memory::refusal::Refusal;
use packed::word::Packed;
use std::process::Abort;
use std::test::Fail;
use words::array::Words;

// The share of an operation.
fn share<M: Memory>(memory: &mut M, task: u32, operation: Operation) -> Result<u32, Refusal> {
    match operation {
        Operation::Read(cell) => Ok(memory.read(task, cell)?.share),
        Operation::Write(cell, number) => Ok(memory.write(task, cell, number)?.share),
        Operation::Add(cell, step) => Ok(memory.add(task, cell, step)?.share),
        Operation::Swap(cell, expected, new) => Ok(memory.swap(task, cell, expected, new)?.share),
    }
}

// Every cell has its number and so many holders.
fn has<M: Memory>(
    rt: &impl Abort,
    memory: &Cache<M>,
    numbers: [u32; 7],
    holders: [u32; 7],
) -> Result<(), Fail> {
    for cell in 0..7 {
        assert_eq!(rt; memory.show(cell)?, numbers[cell as usize]);
        assert_eq!(rt; memory.holders(cell)?, holders[cell as usize]);
    }
    Ok(())
}

// Each operation is refused, and changes nothing.
fn refuses<M: Memory>(
    rt: &impl Abort,
    memory: &mut Cache<M>,
    rows: &[(u32, Operation, Refusal)],
    numbers: [u32; 7],
    holders: [u32; 7],
) -> Result<(), Fail> {
    for (task, operation, refusal) in rows {
        assert_eq!(rt; share(memory, *task, *operation), Err(*refusal));
        has(rt, memory, numbers, holders)?;
    }
    Ok(())
}

#[test]
fn a_holder_reads_for_nothing(rt: HostRuntime) -> Result<(), Fail> {
    let mut memory = Cache::new(Words::new());
    memory.read(5, 4)?;
    // task, operation, its share, the holders of cell 3 after it
    let rows = [
        (1, Operation::Read(3), 1, 1),
        (1, Operation::Read(3), 0, 1),
        (64, Operation::Read(3), 1, 2),
        (2, Operation::Read(3), 1, 3),
        (64, Operation::Read(3), 0, 3),
        (64, Operation::Write(3, 9), 1, 0),
        (64, Operation::Read(3), 1, 1),
        (1, Operation::Add(3, Step::Up), 1, 0),
        (1, Operation::Read(3), 1, 1),
        (1, Operation::Swap(3, 9, 5), 1, 0),
        (1, Operation::Read(3), 1, 1),
        (1, Operation::Swap(3, 10, 5), 1, 0),
        (1, Operation::Read(3), 1, 1),
    ];
    for (task, operation, cost, holders) in &rows {
        assert_eq!(rt; share(&mut memory, *task, *operation)?, *cost);
        assert_eq!(rt; memory.holders(3)?, *holders);
    }
    has(&rt, &memory, [0, 0, 0, 5, 0, 0, 0], [0, 0, 0, 1, 1, 0, 0])
}

#[test]
fn words_refuses(rt: HostRuntime) -> Result<(), Fail> {
    let mut memory = Cache::new(Words::new());
    memory.write(1, 6, u32::MAX)?;
    memory.read(64, 6)?;
    memory.read(1, 0)?;
    let rows = [
        (0, Operation::Read(6), Refusal::Task),
        (65, Operation::Read(7), Refusal::Task),
        (0, Operation::Write(7, 1), Refusal::Task),
        (65, Operation::Add(0, Step::Down), Refusal::Task),
        (0, Operation::Swap(0, 0, 1), Refusal::Task),
        (1, Operation::Read(7), Refusal::Cell),
        (64, Operation::Write(7, 1), Refusal::Cell),
        (1, Operation::Add(7, Step::Down), Refusal::Cell),
        (64, Operation::Swap(7, 0, 1), Refusal::Cell),
        (1, Operation::Add(0, Step::Down), Refusal::Sum),
        (64, Operation::Add(6, Step::Up), Refusal::Sum),
    ];
    refuses(
        &rt,
        &mut memory,
        &rows,
        [0, 0, 0, 0, 0, 0, u32::MAX],
        [1, 0, 0, 0, 0, 0, 1],
    )
}

// The other six keep their numbers under a write, an add and a swap.
#[test]
fn packed_keeps_the_other_fields(rt: HostRuntime) -> Result<(), Fail> {
    let mut memory = Cache::new(Packed::new());
    for cell in 0..7 {
        memory.write(1, cell, 15)?;
    }
    memory.write(1, 0, 0)?;
    assert_eq!(rt;
        memory.add(64, 3, Step::Down)?,
        Reply {
            value: 15,
            share: 1,
        }
    );
    assert_eq!(rt; memory.swap(2, 6, 15, 9)?.value, true);
    assert_eq!(rt; memory.swap(2, 5, 9, 0)?.value, false);
    assert_eq!(rt; memory.read(2, 6)?, Reply { value: 9, share: 1 });
    has(
        &rt,
        &memory,
        [0, 15, 15, 14, 15, 15, 9],
        [0, 0, 0, 0, 0, 0, 1],
    )
}

#[test]
fn packed_refuses(rt: HostRuntime) -> Result<(), Fail> {
    let mut memory = Cache::new(Packed::new());
    memory.write(1, 6, 15)?;
    memory.read(64, 6)?;
    memory.read(1, 0)?;
    let rows = [
        (0, Operation::Write(7, 16), Refusal::Task),
        (65, Operation::Swap(7, 16, 16), Refusal::Task),
        (1, Operation::Write(7, 16), Refusal::Cell),
        (64, Operation::Add(7, Step::Down), Refusal::Cell),
        (1, Operation::Swap(7, 16, 16), Refusal::Cell),
        (1, Operation::Write(6, 16), Refusal::Number),
        (1, Operation::Swap(6, 16, 0), Refusal::Number),
        (1, Operation::Swap(6, 15, 16), Refusal::Number),
        (1, Operation::Add(0, Step::Down), Refusal::Sum),
        (64, Operation::Add(6, Step::Up), Refusal::Sum),
    ];
    refuses(
        &rt,
        &mut memory,
        &rows,
        [0, 0, 0, 0, 0, 0, 15],
        [1, 0, 0, 0, 0, 0, 1],
    )
}

#[test]
fn show_and_holders_refuse_the_cell_alone(rt: HostRuntime) {
    let memory = Cache::new(Words::new());
    assert_eq!(rt; memory.show(6), Ok(0));
    assert_eq!(rt; memory.show(7), Err(Refusal::Cell));
    assert_eq!(rt; memory.show(u32::MAX), Err(Refusal::Cell));
    assert_eq!(rt; memory.holders(6), Ok(0));
    assert_eq!(rt; memory.holders(7), Err(Refusal::Cell));
}

#[test]
fn limits_and_ceilings(rt: HostRuntime) {
    assert_eq!(rt; Words::LIMIT, 4294967295);
    assert_eq!(rt; Cache::<Words>::LIMIT, 4294967295);
    assert_eq!(rt; Cache::<Words>::largest(), 4294967295);
    assert_eq!(rt; Packed::LIMIT, 15);
    assert_eq!(rt; Cache::<Packed>::LIMIT, 15);
    assert_eq!(rt; Cache::<Packed>::largest(), 15);
    assert_eq!(rt; Packed::new().ceiling(), 1);
    assert_eq!(rt; Words::new().ceiling(), 1);
    assert_eq!(rt; Cache::new(Words::new()).ceiling(), 1);
}
