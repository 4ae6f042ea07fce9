// What gathers the lines of a listing on their way to a sink, so that many are written at once.
ghost use Rattle.std.specs.Prelude.{◌≡◌, ◌≤◌, length};

// How many bytes the buffer has.
pub(crate) const SIZE: usize = 4096;

// Once more bytes than these are held it is full: before the next line they are written, so that there is room for 64 more,
// for any line but a long note.
pub(crate) const FULL: usize = 4032;

/// Where the lines of a listing go. What it means is the bytes that its sink has taken, and behind them those that it holds.
/// Where one of its calls fails, a front of what was held and of what the call was to append is written, and none is held.
#[derive(Drop)]
pub struct Output<S> {
    pub(crate) sink: S,
    // the first `count` bytes are held, and yet to be written
    pub(crate) bytes: [u8; SIZE],
    pub(crate) count: usize,
    ghost sized: { length bytes ≡ 4096 },
    ghost within: { count ≤ 4096 },
}
