// What answers the calls of a schedule: a desk that has not chosen its lock yet, a lock that was chosen, or a desk in any
// state.
ghost use Rattle.std.specs.Prelude.{◌≡◌, Bool, false, Result};
ghost use Rattle.calls.specs.declared.refusal.Refusal.{Refusal as LockRefusal};
ghost use Rattle.listing.specs.declared.answer.Answer.{Answer as Told};
ghost use Rattle.script.specs.Calls.{Ask, ask};

use calls::refusal::Refusal;
use listing::answer::Answer;
use script::call::Call;

pub(crate) trait Serve {
    // what it tells of a call, and what it is then
    ghost serves: { Self → Ask → Result Told LockRefusal → Self → Type 0 };

    // whether another answers from then on
    ghost done: { Self → Bool };

    // Makes the call, and tells what a listing says of it.
    fn answer(&mut self, call: Call<'_>) -> Result<Answer, Refusal>
        requires { done self.old ≡ false }
        ensures { serves self.old (ask call.entry) result self.new };

    // Whether another answers from now on.
    fn is_done(&self) -> bool
        ensures { result ≡ done self.now };
}
