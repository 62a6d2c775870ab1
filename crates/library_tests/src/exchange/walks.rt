//! Random walks on random instances: the core is compared with the slow definitions after each event.
ghost use Rattle.std.specs.Prelude.{◌<◌};

use super::run::Run;
use super::slow;
use exchange_core::{AnswerKind, Capacity, Event};
use match_model::{Instance, InstanceBuilder, ModelFault, ProgrammeNo, ResidentNo};
use std::alloc::{AllocError, Global};

const PROGRAMMES: u32 = 3;

const RESIDENTS: u32 = 5;

/// Random numbers, each made from the number before it by shifts and exclusive ors.
#[derive(Drop)]
struct RandomNumbers {
    last_number: u32,
}

impl RandomNumbers {
    /// The next random number, below this bound.
    fn below(&mut self, bound: u32) -> u32
        requires { 0 < bound }
        ensures { result < bound }
    {
        self.last_number ^= self.last_number << 13;
        self.last_number ^= self.last_number >> 17;
        self.last_number ^= self.last_number << 5;
        self.last_number % bound
    }
}

/// Most of the numbers below a prime, in random order.
fn some_numbers_below(
    numbers: &mut RandomNumbers,
    alloc: Global,
    prime: u32,
) -> Result<Vec<u32>, AllocError>
    requires { 1 < prime }
{
    let mut some_numbers = Vec::new(alloc);
    let mut number = numbers.below(prime);
    let step = numbers.below(prime - 1).saturating_add(1);
    for _ in 0..prime {
        if numbers.below(5) > 0 {
            some_numbers.push(number)?;
        }
        number = number.saturating_add(step) % prime;
    }
    Ok(some_numbers)
}

fn some_residents(
    numbers: &mut RandomNumbers,
    alloc: Global,
) -> Result<Vec<ResidentNo>, AllocError> {
    let mut residents = Vec::new(alloc);
    for resident in some_numbers_below(numbers, alloc, RESIDENTS)? {
        residents.push(ResidentNo(resident))?;
    }
    Ok(residents)
}

fn some_programmes(
    numbers: &mut RandomNumbers,
    alloc: Global,
) -> Result<Vec<ProgrammeNo>, AllocError> {
    let mut programmes = Vec::new(alloc);
    for programme in some_numbers_below(numbers, alloc, PROGRAMMES)? {
        programmes.push(ProgrammeNo(programme))?;
    }
    Ok(programmes)
}

/// A random instance with quotas up to 3. Each list has most members of the other side.
fn random_instance(numbers: &mut RandomNumbers, alloc: Global) -> Result<Instance, ModelFault> {
    let mut builder = InstanceBuilder::new(alloc);
    for _ in 0..PROGRAMMES {
        builder.add_programme(numbers.below(4))?;
    }
    for _ in 0..RESIDENTS {
        builder.add_resident()?;
    }
    for programme in 0..PROGRAMMES {
        let residents = some_residents(numbers, alloc)?;
        builder.programme_list(ProgrammeNo(programme), &residents)?;
    }
    for resident in 0..RESIDENTS {
        let programmes = some_programmes(numbers, alloc)?;
        builder.resident_list(ResidentNo(resident), &programmes)?;
    }
    builder.finish().map_err(|refused| refused.fault)
}

/// A random event. Now and then one of its two members doesn't exist.
fn random_event(numbers: &mut RandomNumbers) -> Event {
    let programme = ProgrammeNo(numbers.below(PROGRAMMES + 1).min(numbers.below(30)));
    let resident = ResidentNo(numbers.below(RESIDENTS));
    let kind = match numbers.below(3) {
        0 => AnswerKind::Hold,
        1 => AnswerKind::Decline,
        _ => AnswerKind::Release,
    };
    match numbers.below(9) {
        0 => Event::Close,
        1 | 2 => Event::Offer {
            programme,
            resident,
        },
        3 | 4 => Event::Take {
            resident,
            programme,
        },
        5 | 6 => Event::Answer {
            resident,
            programme,
            kind,
        },
        _ => Event::Hear {
            programme,
            resident,
            kind,
        },
    }
}

/// A random event; in about one of three cases one that may follow.
fn next_event(numbers: &mut RandomNumbers, run: &Run) -> Event {
    if numbers.below(3) > 0 {
        return random_event(numbers);
    }
    run.some_enabled().unwrap_or(Event::Close)
}

/// Whether the core and the slow definitions agree about an event. If the event may follow, it is entered and added
/// to the list.
fn agrees_once(run: &mut Run, cap: Capacity, journal: &mut Vec<Event>, event: Event) -> bool {
    let same_event = event;
    let event_to_add = event;
    let slow_refusal = slow::refusal(&run.inst, cap, journal.as_slice(), event);
    let may_follow = slow_refusal.is_none();
    if !slow::is_same(run.step(same_event), slow_refusal) {
        return false;
    }
    if may_follow {
        let Ok(()) = journal.push(event_to_add) else {
            return false;
        };
    }
    true
}

/// Whether the core and the slow definitions agree about each of `event_count` events tried one after another.
fn agrees_along(
    numbers: &mut RandomNumbers,
    alloc: Global,
    run: &mut Run,
    cap: Capacity,
    event_count: u32,
) -> bool {
    let mut journal = Vec::new(alloc);
    for _ in 0..event_count {
        let event = next_event(numbers, run);
        if !agrees_once(run, cap, &mut journal, event) {
            return false;
        }
    }
    true
}

/// Whether the core and the slow definitions agree about each of `event_count` events tried on a random instance.
pub(super) fn agrees(alloc: Global, seed: u32, cap: Capacity, event_count: u32) -> bool {
    let mut numbers = RandomNumbers { last_number: seed };
    let Ok(inst) = random_instance(&mut numbers, alloc) else {
        return false;
    };
    match Run::new(alloc, inst, cap) {
        Ok(mut run) => agrees_along(&mut numbers, alloc, &mut run, cap, event_count),
        Err(_) => false,
    }
}
