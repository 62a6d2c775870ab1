//! The calls of `match_model`.
use crate::outcome::{Outcome, mark_call_begin, mark_call_end};
use match_model::{Assignment, InstanceBuilder, ModelFault, ResidentNo};
use std::alloc::Global;
use std::io::Write;
use test_support::events::{A, X};

// Whether the builder's instance has these numbers of members and of acceptable pairs.
fn has_sizes(builder: InstanceBuilder, programmes: u32, residents: u32, pairs: u32) -> bool {
    match builder.finish() {
        Ok(instance) => {
            instance.programmes() == programmes
                && instance.residents() == residents
                && instance.pairs() == pairs
        }
        Err(_) => false,
    }
}

// A builder with one programme, which has one place, and with one resident.
fn one_member_each(alloc: Global) -> Result<InstanceBuilder, ModelFault> {
    let mut builder = InstanceBuilder::new(alloc);
    builder.add_programme(1)?;
    builder.add_resident()?;
    Ok(builder)
}

/// Adds a programme.
pub(super) fn add_programme<W: Write>(alloc: Global, stdout: &mut W) -> Outcome {
    let mut builder = InstanceBuilder::new(alloc);
    mark_call_begin(stdout);
    let first_answer = builder.add_programme(1);
    mark_call_end(stdout);
    if first_answer == Err(ModelFault::Memory) {
        let is_second_right = builder.add_programme(1) == Ok(A);
        return Outcome::after_memory_fault(is_second_right && has_sizes(builder, 1, 0, 0));
    }
    Outcome::of_first_answer(first_answer == Ok(A) && has_sizes(builder, 1, 0, 0))
}

/// Adds a resident.
pub(super) fn add_resident<W: Write>(alloc: Global, stdout: &mut W) -> Outcome {
    let mut builder = InstanceBuilder::new(alloc);
    mark_call_begin(stdout);
    let first_answer = builder.add_resident();
    mark_call_end(stdout);
    if first_answer == Err(ModelFault::Memory) {
        let is_second_right = builder.add_resident() == Ok(X);
        return Outcome::after_memory_fault(is_second_right && has_sizes(builder, 0, 1, 0));
    }
    Outcome::of_first_answer(first_answer == Ok(X) && has_sizes(builder, 0, 1, 0))
}

// Whether the resident's list can be given, so that the programme and the resident are an acceptable
// pair.
fn pairs_with_resident(mut builder: InstanceBuilder) -> bool {
    builder.resident_list(X, &[A]) == Ok(()) && has_sizes(builder, 1, 1, 1)
}

/// Gives a programme's list.
pub(super) fn programme_list<W: Write>(alloc: Global, stdout: &mut W) -> Outcome {
    let Ok(mut builder) = one_member_each(alloc) else {
        return Outcome::Wrong;
    };
    mark_call_begin(stdout);
    let first_answer = builder.programme_list(A, &[X]);
    mark_call_end(stdout);
    if first_answer == Err(ModelFault::Memory) {
        let is_second_right = builder.programme_list(A, &[X]) == Ok(());
        return Outcome::after_memory_fault(is_second_right && pairs_with_resident(builder));
    }
    Outcome::of_first_answer(first_answer == Ok(()) && pairs_with_resident(builder))
}

// Whether the programme's list can be given, so that the programme and the resident are an acceptable
// pair.
fn pairs_with_programme(mut builder: InstanceBuilder) -> bool {
    builder.programme_list(A, &[X]) == Ok(()) && has_sizes(builder, 1, 1, 1)
}

/// Gives a resident's list.
pub(super) fn resident_list<W: Write>(alloc: Global, stdout: &mut W) -> Outcome {
    let Ok(mut builder) = one_member_each(alloc) else {
        return Outcome::Wrong;
    };
    mark_call_begin(stdout);
    let first_answer = builder.resident_list(X, &[A]);
    mark_call_end(stdout);
    if first_answer == Err(ModelFault::Memory) {
        let is_second_right = builder.resident_list(X, &[A]) == Ok(());
        return Outcome::after_memory_fault(is_second_right && pairs_with_programme(builder));
    }
    Outcome::of_first_answer(first_answer == Ok(()) && pairs_with_programme(builder))
}

// A builder with a programme and a resident who rank each other.
fn one_pair(alloc: Global) -> Result<InstanceBuilder, ModelFault> {
    let mut builder = one_member_each(alloc)?;
    builder.programme_list(A, &[X])?;
    builder.resident_list(X, &[A])?;
    Ok(builder)
}

/// Finishes a builder.
pub(super) fn finish<W: Write>(alloc: Global, stdout: &mut W) -> Outcome {
    let Ok(builder) = one_pair(alloc) else {
        return Outcome::Wrong;
    };
    mark_call_begin(stdout);
    let first_answer = builder.finish();
    mark_call_end(stdout);
    match first_answer {
        Ok(instance) => Outcome::of_first_answer(instance.pairs() == 1),
        Err(refused) => {
            if refused.fault == ModelFault::Memory {
                Outcome::after_memory_fault(has_sizes(refused.builder, 1, 1, 1))
            } else {
                Outcome::Wrong
            }
        }
    }
}

/// Finishes a builder with its lists.
pub(super) fn finish_with_lists<W: Write>(alloc: Global, stdout: &mut W) -> Outcome {
    let Ok(builder) = one_pair(alloc) else {
        return Outcome::Wrong;
    };
    mark_call_begin(stdout);
    let first_answer = builder.finish_with_lists();
    mark_call_end(stdout);
    match first_answer {
        Ok((instance, written_lists)) => {
            Outcome::of_first_answer(instance.pairs() == 1 && written_lists.choice(X, 0) == Some(A))
        }
        Err(refused) => {
            if refused.fault == ModelFault::Memory {
                Outcome::after_memory_fault(has_sizes(refused.builder, 1, 1, 1))
            } else {
                Outcome::Wrong
            }
        }
    }
}

// Whether neither of two residents is matched.
fn is_empty(assignment: &Assignment) -> bool {
    assignment.len() == 2
        && assignment.get(ResidentNo(0)).is_none()
        && assignment.get(ResidentNo(1)).is_none()
}

/// Makes an assignment of two residents.
pub(super) fn assignment<W: Write>(alloc: Global, stdout: &mut W) -> Outcome {
    mark_call_begin(stdout);
    let first_answer = Assignment::new(alloc, 2);
    mark_call_end(stdout);
    match first_answer {
        Ok(assignment) => Outcome::of_first_answer(is_empty(&assignment)),
        Err(ModelFault::Memory) => match Assignment::new(alloc, 2) {
            Ok(assignment) => Outcome::after_memory_fault(is_empty(&assignment)),
            Err(_) => Outcome::Wrong,
        },
        Err(_) => Outcome::Wrong,
    }
}
