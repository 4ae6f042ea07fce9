// Two theorems that belong to no call: the cases that the documents work out, and that no statement over runs is empty.
// The functions do nothing; what they ensure is the theorem.
ghost use Rattle.cache.specs.Layers.{cached};
ghost use Rattle.lock.specs.Answering.{Answering, Total};
ghost use Rattle.lock.specs.AnswerCases.{AnswerCases, OpenCases};
ghost use Rattle.lock.specs.AloneCases.{AloneCases};
ghost use Rattle.lock.specs.QuestionCases.{CheckCases, QuestionCases};
ghost use Rattle.lock.specs.WaitingCases.{WaitingCases};

use cache::layer::Cache;
use memory::interface::Memory;
use packed::word::Packed;
use words::array::Words;

/// The worked cases: runs of lock 1 over the cache layer on Words and on Packed, with cells, places and costs at their end, in which
/// each answer occurs and each refusal but those of opening, 11 to 16, which are shown as what its questions tell of a state; what the
/// other questions tell in such runs; and states that the check of a state is asked about. Takes nothing, refuses nothing, does nothing.
pub fn cases_hold()
    ensures alone { AloneCases ⟦<Words as Memory>⟧ × AloneCases ⟦<Packed as Memory>⟧ }
    ensures waiting { WaitingCases ⟦<Words as Memory>⟧ × WaitingCases ⟦<Packed as Memory>⟧ }
    ensures answers { AnswerCases ⟦<Words as Memory>⟧ × AnswerCases ⟦<Packed as Memory>⟧ }
    ensures opening { OpenCases }
    ensures questions { QuestionCases ⟦<Words as Memory>⟧ × QuestionCases ⟦<Packed as Memory>⟧ }
    ensures checks { CheckCases }
{}

/// No statement over runs is empty: a lock can be opened, and from each state each call has an answer and a next state, and each list
/// of calls a run. So it is over each memory that does what it does not refuse, over the cache layer on it, over Words and Packed,
/// and over the cache layer on these. Takes nothing, refuses nothing, does nothing.
pub fn calls_answer<M: Memory>()
    ensures any { Total M.Memory → Answering M.Memory }
    ensures layer { Total M.Memory → Answering (cached M.Memory) }
    ensures words { Answering ⟦<Words as Memory>⟧ × Answering ⟦<Cache<Words> as Memory>⟧ }
    ensures packed { Answering ⟦<Packed as Memory>⟧ × Answering ⟦<Cache<Packed> as Memory>⟧ }
{}
