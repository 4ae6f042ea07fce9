// The check of a state: the first of six rules that cells and tasks from anywhere break.
ghost use Rattle.std.specs.Prelude.{◌≡◌, ◌≤◌, length};
ghost use Rattle.calls.specs.Checks.{broken_rule, keeps_ranges, passed, state_checked};
ghost use Rattle.calls.specs.SoundState.{SoundState};

use crate::census::Census;
use crate::record::Record;
use crate::refusal::Refusal;
use crate::rule::Rule;
use memory::cells::{C, D, GATE, PERMIT, U, V, X};

// The first rule that the cells and the records of 1 to 64 tasks break, if any.
pub fn check_state(cells: &[u32; 7], tasks: &[Record]) -> Result<Option<Rule>, Refusal>
    ensures value { result ≡ state_checked cells.now tasks.now }
    ensures sound { result ≡ passed → SoundState cells.now tasks.now }
    ensures complete { 1 ≤ length tasks.now → length tasks.now ≤ 64 → SoundState cells.now tasks.now → result ≡ passed }
{
    if tasks.is_empty() || tasks.len() > 64 {
        return Err(Refusal::Roles);
    }
    Ok(first_broken(cells, tasks))
}

fn first_broken(cells: &[u32; 7], tasks: &[Record]) -> Option<Rule>
    requires { length tasks.now ≤ 64 }
    ensures { result ≡ broken_rule cells.now tasks.now }
{
    let census = Census::of(tasks);
    if !are_in_range(cells, tasks.len() as u32) {
        return Some(Rule::Ranges);
    }
    if cells[C as usize] != census.counted {
        return Some(Rule::Count);
    }
    if census.writing > 0 && census.section > 1 {
        return Some(Rule::Exclusion);
    }
    if census.upgrading > 1 {
        return Some(Rule::Upgrade);
    }
    if (cells[U as usize] == 2) != (census.upgraded == 1) {
        return Some(Rule::CellU);
    }
    if census.normal > 0 && cells[X as usize] != 0 {
        return Some(Rule::CellX);
    }
    None
}

// Whether each cell is within its range, with this many tasks.
fn are_in_range(cells: &[u32; 7], count: u32) -> bool
    ensures { result ≡ keeps_ranges cells.now count }
{
    cells[C as usize] <= count
        && cells[X as usize] <= count
        && cells[U as usize] <= 2
        && cells[D as usize] <= 1
        && cells[GATE as usize] <= 1
        && cells[PERMIT as usize] <= 1
        && cells[V as usize] <= 1
}
