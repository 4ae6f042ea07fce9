// The rows of the table, read and put by those who show a pass.
ghost use Rattle.std.specs.Prelude.{◌≡◌, ◌<◌, IfNone, IfOk, IfSome, slice_index};
ghost use Rattle.calls.specs.Questions.{row_refusal, thickness_refusal};
ghost use Rattle.calls.specs.Steps.{row_answer};
ghost use Rattle.lock.specs.Answers.{Asked, row_told, said};
ghost use Rattle.lock.specs.Rows.{IsMeasured, put_showing, read_showing};
ghost use Rattle.lock.specs.View.{Does};

use crate::locks::Lock;
use crate::pass::{Bears, Pass, WritePass, Writing};
use calls::refusal::Refusal;
use memory::interface::Memory;
use queue::interface::Queue;

// A row's answer: a thickness, or nothing where nobody has measured the rib. Refused: 32.
// (The table is the toolkit's own, and has 0 for none.)
fn answer_of(number: u32) -> Result<Option<u32>, Refusal>
    ensures answers { row_told result ≡ row_answer number }
    ensures measured { IfOk result (λ told. IfSome told (IsMeasured number)) }
    ensures unmeasured { IfOk result (λ told. IfNone told (number ≡ 0)) }
{
    if number == 0 {
        Ok(None)
    } else if number <= 1000000 {
        Ok(Some(number))
    } else {
        Err(Refusal::Stored)
    }
}

// Whether a table with so many rows has this one. Refused: 30.
fn ask_row(row: usize, rows: usize) -> Result<(), Refusal>
    ensures { Asked (row_refusal row rows) result (row < rows) }
{
    if row >= rows {
        return Err(Refusal::NoRow);
    }
    Ok(())
}

// Whether a row may get this thickness. Refused: 31.
fn ask_thickness(thickness: u32) -> Result<(), Refusal>
    ensures { Asked (thickness_refusal thickness) result (Unit {0}) }
{
    if thickness < 1 || thickness > 1000000 {
        return Err(Refusal::Thickness);
    }
    Ok(())
}

impl<'a, M: Memory, Q: Queue> Lock<'a, M, Q> {
    /// The thickness in a row, or nothing where nobody has measured the rib: never 0. Refused: 10, 27, 28, 30, 32.
    pub fn read<R: Bears>(&self, pass: &Pass<R>, row: usize) -> Result<Option<u32>, Refusal>
        ensures measured { IfOk result (λ told. IfSome told (IsMeasured (slice_index self.now.table.now row))) }
        ensures unmeasured { IfOk result (λ told. IfNone told (slice_index self.now.table.now row ≡ 0)) }
        ensures does { Does M.Memory Q.Queue (read_showing R.right pass.now row) self.now (row_told result) self.now }
    {
        self.holder(pass)?;
        answer_of(*self.table.get(row).ok_or(Refusal::NoRow)?)
    }

    // Puts a thickness into a row, for a writing pass that is only shown. Refused: 10, 27, 28, 30, 31.
    // (By index, since of a slice that `get_mut` lent out a proof knows the length alone.)
    pub fn put(&mut self, pass: &WritePass, row: usize, thickness: u32) -> Result<(), Refusal>
        ensures { Does M.Memory Q.Queue (put_showing pass.now row thickness) self.old (said result) self.new }
    {
        self.holder::<Writing>(pass)?;
        ask_row(row, self.table.len())?;
        ask_thickness(thickness)?;
        self.table[row] = thickness;
        Ok(())
    }
}
