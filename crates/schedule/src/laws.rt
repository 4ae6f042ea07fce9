// Laws of whole schedules, which belong to no call: the function does nothing, and what it ensures are the theorems.
ghost use Rattle.schedule.specs.Laws.{Numbered, Prefix, QuietLines, Undisturbed};

// A listing is what its lines come to, with their numbers; a schedule that is cut at a line end has a listing that
// the whole one begins with; and a blank line or a note changes no other answer.
pub fn laws_hold()
    ensures numbered { Numbered }
    ensures prefix { Prefix }
    ensures quiet { QuietLines }
    ensures undisturbed { Undisturbed }
{}
