// Examples of Words asked through the interface, and the numbers of the refusals.
use crate::array::Words;
use memory::interface::Memory;
use memory::operation::{Reply, Step};
use memory::refusal::Refusal;
use std::test::Fail;

#[test]
fn words_answers(rt: HostRuntime) -> Result<(), Fail> {
    let mut memory = Words::new();
    memory.write(1, 6, 9)?;
    assert_eq!(rt; memory.add(64, 6, Step::Up)?, Reply { value: 9, share: 1 });
    assert_eq!(rt; memory.add(2, 6, Step::Down)?.value, 10);
    assert_eq!(rt; memory.swap(2, 6, 10, 3)?.value, false);
    assert_eq!(rt; memory.read(2, 6)?, Reply { value: 9, share: 1 });
    assert_eq!(rt; memory.swap(2, 6, 9, 3)?.value, true);
    assert_eq!(rt; memory.read(2, 6)?.value, 3);
    assert_eq!(rt; memory.show(5)?, 0);
    Ok(())
}

#[test]
fn limit_and_ceiling(rt: HostRuntime) {
    assert_eq!(rt; Words::LIMIT, 4294967295);
    assert_eq!(rt; Words::new().ceiling(), 1);
}

#[test]
fn refusals_have_their_numbers(rt: HostRuntime) {
    assert_eq!(rt; Refusal::Task.number(), 1);
    assert_eq!(rt; Refusal::Cell.number(), 2);
    assert_eq!(rt; Refusal::Number.number(), 3);
    assert_eq!(rt; Refusal::Sum.number(), 4);
}
