// The seven cells by name. They are numbers and no enum, since the interface
// takes any number for a cell and refuses those above 6.

// how many tasks are counted
pub const C: u32 = 0;

// the side on which the next readers wait
pub const D: u32 = 1;

// the side that may pass
pub const GATE: u32 = 2;

// 0 where the writer may go in, else a task's number
pub const X: u32 = 3;

// 1 where the writer is let in
pub const PERMIT: u32 = 4;

// 0 clear, 1 upgrading, 2 writing
pub const U: u32 = 5;

// 1 where an upgraded task keeps readers out
pub const V: u32 = 6;

// how many there are
pub const COUNT: u32 = 7;
