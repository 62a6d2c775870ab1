//! Small mailboxes on one thread, and mailboxes between two threads.
ghost use Rattle.std.specs.Prelude.{◌≡◌, ◌++◌, [], ◌∷◌};
ghost use Rattle.std.specs.Bool.{OnTrue};

use mailbox_rule::{
    ListPut, ListTake, MailFault, PutEnd, PutReply, RuledPut, RuledTake, TakeEnd, TakeReply, agree,
    mailbox,
};
use std::alloc::Global;
use std::marker::Model;
use std::sync::Wait;
use std::test::*;
use std::thread;
use std::thread::Threads;

const TURNS: u32 = 10_000_000;

// Puts the numbers 5, 6 and 7, and then takes three messages out of the mailbox.
fn three_each<P: PutEnd<u32>, T: TakeEnd<u32>>(
    mut put: P,
    mut take: T,
) -> ([PutReply<u32>; 3], [TakeReply<u32>; 3], P, T) {
    let first_put = put.put(5);
    let second_put = put.put(6);
    let third_put = put.put(7);
    let put_replies = [first_put, second_put, third_put];
    let first_take = take.take();
    let second_take = take.take();
    let third_take = take.take();
    (
        put_replies,
        [first_take, second_take, third_take],
        put,
        take,
    )
}

const PUT_REPLIES: [PutReply<u32>; 3] = [PutReply::Done, PutReply::Done, PutReply::Full(7)];

const TAKE_REPLIES: [TakeReply<u32>; 3] = [
    TakeReply::Got(5),
    TakeReply::Got(6),
    TakeReply::Nothing,
];

#[test]
fn two_places(rt: HostRuntime) -> Result<(), Fail> {
    let (put, take) = mailbox(rt.alloc(), rt, 2)?;
    let (put_replies, take_replies, _put, _take) = three_each(put, take);
    assert!(rt; put_replies == PUT_REPLIES);
    assert!(rt; take_replies == TAKE_REPLIES);
    Ok(())
}

#[test]
fn two_places_in_memory(rt: HostRuntime) -> Result<(), Fail> {
    let put = ListPut::with_room(rt.alloc(), 2)?;
    let take = ListTake::of([5, 6].to_vec(rt.alloc())?);
    let (put_replies, take_replies, _put, _take) = three_each(put, take);
    assert!(rt; put_replies == PUT_REPLIES);
    assert!(rt; take_replies == TAKE_REPLIES);
    Ok(())
}

#[test]
fn capacities(rt: HostRuntime) {
    // a desk can be sent at most twice as many messages as there are acceptable pairs
    for (capacity, right_fault) in [(0, Some(MailFault::NoCapacity)), (1, None), (400_000, None)] {
        let fault = mailbox::<u32, HostRuntime>(rt.alloc(), rt, capacity).err();
        assert!(rt; fault == right_fault, "{capacity}");
    }
}

#[test]
fn rooms(rt: HostRuntime) -> Result<(), Fail> {
    for (room, reply) in [(0, PutReply::Full(5)), (400_000, PutReply::Done)] {
        let mut put = ListPut::with_room(rt.alloc(), room)?;
        assert!(rt; put.put(5) == reply, "{room}");
    }
    Ok(())
}

#[test]
fn texts(rt: HostRuntime) -> Result<(), Fail> {
    for (fault, text) in [
        (MailFault::NoCapacity, "a mailbox needs a capacity above 0"),
        (MailFault::Memory, "out of memory"),
    ] {
        assert!(rt; fault.to_string(rt.alloc())?.as_str() == text, "{text}");
    }
    Ok(())
}

#[test]
fn nobody_takes(rt: HostRuntime) -> Result<(), Fail> {
    let (mut put, take) = mailbox(rt.alloc(), rt, 2)?;
    drop(take);
    assert!(rt; put.put(5) == PutReply::Gone(5));
    Ok(())
}

#[test]
fn nobody_puts(rt: HostRuntime) -> Result<(), Fail> {
    let (mut put, mut take) = mailbox(rt.alloc(), rt, 2)?;
    assert!(rt; put.put(5) == PutReply::Done);
    drop(put);
    for reply in [TakeReply::Got(5), TakeReply::Gone] {
        assert!(rt; take.take() == reply);
    }
    Ok(())
}

// A message. Contracts see the message as a number.
#[derive(Clone, Copy, PartialEq, Eq, Debug)]
struct Note {
    number: u32,
}

impl Model for Note {
    ghost use Rattle.std.specs.Prelude.{ℕ};

    ghost Value = { ℕ };

    ghost view = { λ note. note.number };

    ghost inverse = { λ value. record { number = value } };
}

fn post<P: PutEnd<Note>>(put: &mut P, number: u32) -> bool
    ensures { OnTrue result (P.puts put.new ≡ P.puts put.old ++ number ∷ []) }
{
    matches!(put.put(Note { number }), PutReply::Done)
}

#[test]
fn notes(rt: HostRuntime) -> Result<(), Fail> {
    let (mut put, mut take) = mailbox(rt.alloc(), rt, 1)?;
    assert!(rt; post(&mut put, 7));
    assert!(rt; !post(&mut put, 8));
    for reply in [TakeReply::Got(Note { number: 7 }), TakeReply::Nothing] {
        assert!(rt; take.take() == reply);
    }
    Ok(())
}

// Puts all numbers below `bound`, in order.
fn put_all<R: Wait + Copy>(mut put: RuledPut<u32, R>, bound: u32) -> RuledPut<u32, R>
    ensures { result.mailbox ≡ put.mailbox }
{
    let mut next_number = 0;
    for _ in 0..TURNS {
        if next_number >= bound {
            break;
        }
        match put.put(next_number) {
            PutReply::Done => next_number += 1,
            PutReply::Full(_) | PutReply::Gone(_) => thread::yield_now(),
        }
    }
    put
}

// Takes numbers until `taken_numbers` has `number_count` numbers.
fn take_all<R: Wait + Copy>(
    mut take: RuledTake<u32, R>,
    mut taken_numbers: Vec<u32>,
    number_count: usize,
) -> (RuledTake<u32, R>, Vec<u32>)
    ensures { result.0.mailbox ≡ take.mailbox }
{
    for _ in 0..TURNS {
        if taken_numbers.len() >= number_count {
            break;
        }
        match take.take() {
            TakeReply::Got(number) => {
                let Ok(()) = taken_numbers.push(number) else {
                    break;
                };
            }
            TakeReply::Nothing | TakeReply::Gone => thread::yield_now(),
        }
    }
    (take, taken_numbers)
}

// Puts all numbers below `bound`, in order, and takes as many numbers.
fn exchange<R: Wait + Copy>(
    mut put: RuledPut<u32, R>,
    mut take: RuledTake<u32, R>,
    mut taken_numbers: Vec<u32>,
    bound: u32,
) -> (RuledPut<u32, R>, RuledTake<u32, R>, Vec<u32>)
    ensures { (result.0.mailbox ≡ put.mailbox) × (result.1.mailbox ≡ take.mailbox) }
{
    let mut next_number = 0;
    for _ in 0..TURNS {
        if next_number < bound && matches!(put.put(next_number), PutReply::Done) {
            next_number += 1;
        }
        match take.take() {
            TakeReply::Got(number) => {
                let Ok(()) = taken_numbers.push(number) else {
                    break;
                };
            }
            TakeReply::Nothing | TakeReply::Gone => thread::yield_now(),
        }
        if taken_numbers.len() >= bound as usize {
            break;
        }
    }
    (put, take, taken_numbers)
}

// Takes `number_count` numbers, and puts each of them into the other mailbox.
fn pass_on<R: Wait + Copy>(
    mut take: RuledTake<u32, R>,
    mut put: RuledPut<u32, R>,
    number_count: u32,
) -> (RuledTake<u32, R>, RuledPut<u32, R>)
    ensures { (result.0.mailbox ≡ take.mailbox) × (result.1.mailbox ≡ put.mailbox) }
{
    let mut passed_count = 0;
    let mut held_number = None;
    for _ in 0..TURNS {
        if passed_count >= number_count {
            break;
        }
        if held_number.is_none()
            && let TakeReply::Got(number) = take.take()
        {
            held_number = Some(number);
        }
        match held_number {
            Some(number) if matches!(put.put(number), PutReply::Done) => {
                held_number = None;
                passed_count += 1;
            }
            _ => thread::yield_now(),
        }
    }
    (take, put)
}

// The numbers that went through a mailbox from one thread to another.
fn relayed_numbers<R: Threads + Wait + Sync + Send + Copy>(
    rt: R,
    alloc: Global,
    capacity: u32,
    bound: u32,
) -> Result<Vec<u32>, Fail> {
    let (put, take) = mailbox(alloc, rt, capacity)?;
    let taken_numbers = Vec::with_capacity(alloc, bound as usize)?;
    let (put, (take, numbers)) = thread::join(
        &rt,
        move || put_all(put, bound),
        move || take_all(take, taken_numbers, bound as usize),
    );
    let (_put, _take) = agree(put, take);
    Ok(numbers)
}

// Whether these are all numbers below `bound`, in order.
fn is_counted(numbers: &[u32], bound: u32) -> bool {
    numbers.len() == bound as usize
        && numbers
            .iter()
            .zip(0..bound)
            .all(|(number, expected)| *number == expected)
}

#[test]
fn relay(rt: HostRuntime) -> Result<(), Fail> {
    let numbers = relayed_numbers(rt, rt.alloc(), 8, 10_000)?;
    assert!(rt; is_counted(numbers.as_slice(), 10_000));
    Ok(())
}

#[test]
fn relay_one_by_one(rt: HostRuntime) -> Result<(), Fail> {
    let numbers = relayed_numbers(rt, rt.alloc(), 1, 10_000)?;
    assert!(rt; is_counted(numbers.as_slice(), 10_000));
    Ok(())
}

// The numbers that went through one mailbox to another thread, and through a second mailbox back.
fn returned_numbers<R: Threads + Wait + Sync + Send + Copy>(
    rt: R,
    alloc: Global,
    capacity: u32,
    bound: u32,
) -> Result<Vec<u32>, Fail> {
    let (outward_put, outward_take) = mailbox(alloc, rt, capacity)?;
    let (return_put, return_take) = mailbox(alloc, rt, capacity)?;
    let taken_numbers = Vec::with_capacity(alloc, bound as usize)?;
    let ((outward_put, return_take, numbers), (outward_take, return_put)) = thread::join(
        &rt,
        move || exchange(outward_put, return_take, taken_numbers, bound),
        move || pass_on(outward_take, return_put, bound),
    );
    let (_outward_put, _outward_take) = agree(outward_put, outward_take);
    let (_return_put, _return_take) = agree(return_put, return_take);
    Ok(numbers)
}

#[test]
fn there_and_back(rt: HostRuntime) -> Result<(), Fail> {
    let numbers = returned_numbers(rt, rt.alloc(), 8, 10_000)?;
    assert!(rt; is_counted(numbers.as_slice(), 10_000));
    Ok(())
}
