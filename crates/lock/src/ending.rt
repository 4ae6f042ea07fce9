// How a pass ends.
ghost use Rattle.lock.specs.Answers.{said, spent};
ghost use Rattle.std.specs.Prelude.{◌≡◌, IfErr};

use crate::pass::{Kept, Pass};
use calls::refusal::Refusal;

impl<R> Pass<R> {
    // It ends where the call that was made with it is obeyed, and comes back where it is refused.
    pub(crate) fn end_or_keep(self, made: Result<(), Refusal>) -> Result<(), Kept<Pass<R>>>
        ensures says { spent result ≡ said made }
        ensures back { IfErr result (λ kept. kept.pass ≡ self) }
    {
        match made {
            Ok(()) => {
                self.end();
                Ok(())
            }
            Err(why) => Err(Kept { pass: self, why }),
        }
    }
}
