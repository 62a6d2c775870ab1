//! What a call did, and the marks in the output before and after the call.
use std::io::Write;

/// What a call did.
#[derive(Clone, Copy, Debug, PartialEq, Eq)]
pub(super) enum Outcome {
    /// The call gave its right answer.
    Answered,
    /// The call answered that memory ran out, and changed nothing. When it was made again, it gave its right
    /// answer.
    WantedMemory,
    /// The call answered that a worker could not be started. When it was made again, it gave its right answer.
    WantedThread,
    /// The call did anything else.
    Wrong,
}

impl Outcome {
    /// What a call did that answered without a fault; `is_answer_right` says whether its answer was right.
    pub(super) fn of_first_answer(is_answer_right: bool) -> Outcome {
        if is_answer_right {
            Outcome::Answered
        } else {
            Outcome::Wrong
        }
    }

    /// What a call did that first answered that memory ran out; `is_answer_right` says whether its second answer
    /// was right.
    pub(super) fn after_memory_fault(is_answer_right: bool) -> Outcome {
        if is_answer_right {
            Outcome::WantedMemory
        } else {
            Outcome::Wrong
        }
    }

    /// What a call did that first answered that a worker could not be started; `is_answer_right` says whether its
    /// second answer was right.
    pub(super) fn after_thread_fault(is_answer_right: bool) -> Outcome {
        if is_answer_right {
            Outcome::WantedThread
        } else {
            Outcome::Wrong
        }
    }

    /// The word for what the call did.
    pub(super) fn word(self) -> &'static str {
        match self {
            Outcome::Answered => "answered",
            Outcome::WantedMemory => "memory",
            Outcome::WantedThread => "thread",
            Outcome::Wrong => "wrong",
        }
    }
}

/// Writes the mark after which growths of memory are counted.
pub(super) fn mark_call_begin<W: Write>(stdout: &mut W) {
    let _ = stdout.write_all(b"call\n");
}

/// Writes the mark after which no growth of memory is counted.
pub(super) fn mark_call_end<W: Write>(stdout: &mut W) {
    let _ = stdout.write_all(b"done\n");
}
