// A schedule that is being run: its text, and the desk where its calls are made.
ghost use Rattle.std.specs.Prelude.{◌≡◌, ◌≤◌, length, Some};
ghost use Rattle.script.specs.declared.refusal.Refusal.{Refusal as LineRefusal};
ghost use Rattle.script.specs.declared.refusal.Refusal.TheVariants.{Length};

use crate::desk::Desk;
use script::reader::Reader;

/// A schedule at a desk that is lent to it. Of an input that is too long no line is read, and one line of the listing tells
/// why.
#[derive(Drop)]
pub struct Schedule<'s, 'b, 'a> {
    pub(crate) reader: Reader<'s>,
    // why the input is refused as a whole, until a line of the listing has told it
    pub(crate) untold: Option<script::refusal::Refusal>,
    pub(crate) desk: &'b mut Desk<'a>,
    ghost short: { length reader.input.now ≤ 65536 },
    // the one reason is that it is too long
    ghost reason: { (e : LineRefusal) → untold ≡ Some e → e ≡ Length },
}
