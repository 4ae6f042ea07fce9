// States at the edge of each rule, with all rules before it kept, and ties in cost.
use crate::checking::check_state;
use crate::costs::costliest;
use crate::record::Record;
use crate::refusal::Refusal;
use lines::place::{Line, Place, Role, Standing};
use std::process::Abort;
use std::test::Fail;

// the cells of a lock just opened
const OPENED: [u32; 7] = [0, 0, 0, 1, 1, 0, 0];

fn task(role: Role, place: Place, standing: Standing) -> Record {
    let mut task = Record::new(role);
    task.track.place = place;
    task.track.standing = standing;
    task
}

fn reader_at(line: Line) -> Record {
    task(Role::Reader, Place::Next(line), Standing::Normal)
}

fn writer_inside() -> Record {
    task(Role::Writer, Place::Inside, Standing::Normal)
}

// The rule of this number is the first that is broken, or none where it is 0.
fn breaks(rt: &impl Abort, cells: [u32; 7], tasks: &[Record], rule: u32) -> Result<(), Fail> {
    match check_state(&cells, tasks)? {
        Some(broken) => {
            assert_eq!(rt; broken.number(), rule);
            Ok(())
        },
        None => {
            assert_eq!(rt; rule, 0);
            Ok(())
        },
    }
}

#[test]
fn from_1_to_64_tasks(rt: HostRuntime) {
    let tasks = [Record::new(Role::Reader); 65];
    assert_eq!(rt; check_state(&OPENED, &tasks[0..0]), Err(Refusal::Roles));
    assert_eq!(rt; check_state(&OPENED, &tasks[0..1]), Ok(None));
    assert_eq!(rt; check_state(&OPENED, &tasks[0..64]), Ok(None));
    assert_eq!(rt; check_state(&OPENED, &tasks), Err(Refusal::Roles));
}

#[test]
fn ranges(rt: HostRuntime) -> Result<(), Fail> {
    let tasks = [Record::new(Role::Reader), Record::new(Role::Writer)];
    breaks(&rt, [2, 1, 1, 2, 1, 0, 1], &tasks, 2)?;
    breaks(&rt, [3, 1, 1, 2, 1, 0, 1], &tasks, 1)?;
    breaks(&rt, [0, 1, 1, 2, 1, 0, 1], &tasks, 0)?;
    breaks(&rt, [0, 2, 1, 2, 1, 0, 1], &tasks, 1)?;
    breaks(&rt, [0, 1, 2, 2, 1, 0, 1], &tasks, 1)?;
    breaks(&rt, [0, 1, 1, 3, 1, 0, 1], &tasks, 1)?;
    breaks(&rt, [0, 1, 1, 2, 2, 0, 1], &tasks, 1)?;
    breaks(&rt, [0, 1, 1, 2, 1, 2, 1], &tasks, 5)?;
    breaks(&rt, [0, 1, 1, 2, 1, 3, 1], &tasks, 1)?;
    breaks(&rt, [0, 1, 1, 2, 1, 0, 2], &tasks, 1)
}

#[test]
fn an_impossible_task_is_counted_and_in_the_section(rt: HostRuntime) -> Result<(), Fail> {
    let reader = reader_at(Line::L25p2);
    breaks(&rt, [0, 0, 0, 0, 0, 0, 0], &[reader], 2)?;
    breaks(&rt, [1, 0, 0, 0, 0, 0, 0], &[reader], 0)?;
    breaks(&rt, [1, 0, 0, 0, 0, 0, 0], &[reader, writer_inside()], 3)
}

#[test]
fn beside_a_writer(rt: HostRuntime) -> Result<(), Fail> {
    let cells = [1, 0, 0, 0, 0, 2, 0];
    breaks(&rt, cells, &[writer_inside(), reader_at(Line::Down28p2)], 3)?;
    breaks(&rt, cells, &[writer_inside(), reader_at(Line::L28p2)], 0)?;
    breaks(
        &rt,
        [0, 0, 0, 0, 0, 0, 0],
        &[writer_inside(), writer_inside()],
        3,
    )?;
    breaks(&rt, [0, 0, 0, 0, 0, 0, 0], &[writer_inside()], 0)?;
    breaks(&rt, [0, 0, 0, 1, 0, 0, 0], &[writer_inside()], 6)
}

#[test]
fn upgrades(rt: HostRuntime) -> Result<(), Fail> {
    let upgraded = task(Role::Reader, Place::Inside, Standing::Upgraded);
    breaks(
        &rt,
        [2, 0, 0, 0, 0, 1, 1],
        &[reader_at(Line::L27p2), reader_at(Line::L27p5)],
        4,
    )?;
    breaks(
        &rt,
        [2, 0, 0, 0, 0, 2, 1],
        &[upgraded, reader_at(Line::L28p2)],
        4,
    )?;
    breaks(
        &rt,
        [2, 0, 0, 0, 0, 2, 1],
        &[upgraded, reader_at(Line::L29p2)],
        0,
    )?;
    breaks(
        &rt,
        [2, 0, 0, 0, 0, 1, 1],
        &[upgraded, reader_at(Line::L22p2)],
        5,
    )
}

#[test]
fn costliest_of_equals_is_the_lowest(rt: HostRuntime) {
    let mut tasks = [Record::new(Role::Reader); 3];
    assert_eq!(rt; costliest(&tasks[0..0]), None);
    assert_eq!(rt; costliest(&tasks[0..1]), Some(1));
    assert_eq!(rt; costliest(&tasks), Some(1));
    tasks[2].account.charge(7);
    assert_eq!(rt; costliest(&tasks), Some(3));
    tasks[1].account.charge(7);
    assert_eq!(rt; costliest(&tasks), Some(2));
}
