//! What no clause says: that each call succeeds while there is memory. The order is that of HTML, 8.6 Timers.
use crate::numbers::next_in;
use crate::*;
use door::{Actor, PAGE};
use std::process::Abort;
use std::test::Fail;
use std::time::Instant;

const A: Actor = Actor(2);

const B: Actor = Actor(3);

/// A timer that is due: its actor, number and callback.
type Told = Option<(Actor, u32, u32)>;

/// One call on the timers, and its answer.
#[derive(Clone, Copy, Debug)]
enum Step {
    /// A timer of an actor with a delay and a callback is set, and has this number.
    Set(Actor, u32, u32, u32),
    /// It is refused, since the actor has too many.
    Full(Actor),
    /// A timer of an actor is cleared; whether it waited.
    Clear(Actor, u32, bool),
    /// What is due at a clock, told twice and then taken; the clock is then at this time.
    Take(u64, Told, u64),
    /// The clock moves.
    Advance(u64),
}

fn set(
    rt: &impl Abort,
    timers: &mut Timers,
    actor: Actor,
    delay: u32,
    callback: u32,
) -> Result<u32, TimerFault> {
    assert!(rt; timers.clock < 1_000_000_000_000);
    assert!(rt; next_in(&timers.given, actor) < 1_000_000);
    timers.set(actor, delay, callback)
}

fn advance(rt: &impl Abort, timers: &mut Timers, upto: u64) {
    assert!(rt; timers.next_due(upto).is_none());
    timers.advance(upto);
}

fn told(t: Option<DueTimer>) -> Told {
    match t {
        Some(t) => Some((t.actor, t.number, t.callback)),
        None => None,
    }
}

/// Whether a call answers what its step says.
fn goes(rt: &impl Abort, timers: &mut Timers, step: Step) -> bool {
    match step {
        Step::Set(actor, delay, callback, number) => {
            set(rt, timers, actor, delay, callback) == Ok(number)
        }
        Step::Full(actor) => set(rt, timers, actor, 0, 0) == Err(TimerFault::TimerLimit),
        Step::Clear(actor, number, there) => timers.clear(actor, number) == there,
        Step::Take(upto, due, clock) => {
            let first = told(timers.next_due(upto)) == due;
            let again = told(timers.next_due(upto)) == due;
            let taken = told(timers.take_due(upto)) == due;
            first && again && taken && timers.clock == clock
        }
        Step::Advance(upto) => {
            advance(rt, timers, upto);
            timers.clock == upto
        }
    }
}

/// The first step of a run that doesn't go as it says; the number of steps where each does.
fn first_wrong(rt: &impl Abort, timers: &mut Timers, steps: &[Step]) -> usize {
    for at in 0..steps.len() {
        if !goes(rt, timers, steps[at]) {
            return at;
        }
    }
    steps.len()
}

#[test]
fn timers_run_by_due_time_and_then_by_setting(rt: HostRuntime) -> Result<(), Fail> {
    use Step::{Advance, Clear, Set, Take};
    let runs: [&[Step]; 24] = [
        // None waits.
        &[
            Take(0, None, 0),
            Take(1_000_000_000, None, 0),
            Advance(5),
            Take(5, None, 5),
        ],
        &[
            Clear(PAGE, 0, false),
            Clear(PAGE, 1, false),
            Set(PAGE, 0, 7, 1),
            Clear(PAGE, 1, true),
        ],
        // One timer.
        &[
            Set(PAGE, 0, 7, 1),
            Take(0, Some((PAGE, 1, 7)), 0),
            Take(0, None, 0),
        ],
        &[
            Set(PAGE, 20, 7, 1),
            Take(19, None, 0),
            Take(20, Some((PAGE, 1, 7)), 20),
            Take(40, None, 20),
        ],
        &[
            Set(PAGE, 20, 7, 1),
            Take(90, Some((PAGE, 1, 7)), 20),
            Advance(90),
        ],
        // The earlier due time goes first, whatever was set first.
        &[
            Set(PAGE, 20, 5, 1),
            Set(PAGE, 10, 6, 2),
            Take(30, Some((PAGE, 2, 6)), 10),
            Take(30, Some((PAGE, 1, 5)), 20),
        ],
        &[
            Set(PAGE, 3, 1, 1),
            Set(PAGE, 1, 2, 2),
            Set(PAGE, 2, 3, 3),
            Take(9, Some((PAGE, 2, 2)), 1),
            Take(9, Some((PAGE, 3, 3)), 2),
            Take(9, Some((PAGE, 1, 1)), 3),
            Take(9, None, 3),
        ],
        // Of one due time the one that was set first goes first.
        &[
            Set(PAGE, 5, 1, 1),
            Set(PAGE, 5, 2, 2),
            Set(PAGE, 5, 3, 3),
            Take(5, Some((PAGE, 1, 1)), 5),
            Take(5, Some((PAGE, 2, 2)), 5),
            Take(5, Some((PAGE, 3, 3)), 5),
        ],
        &[
            Set(A, 5, 9, 1),
            Set(PAGE, 5, 8, 1),
            Take(5, Some((A, 1, 9)), 5),
            Take(5, Some((PAGE, 1, 8)), 5),
        ],
        // So also where the clocks of their setting differ.
        &[
            Set(PAGE, 10, 1, 1),
            Advance(4),
            Set(PAGE, 6, 2, 2),
            Set(PAGE, 5, 3, 3),
            Take(10, Some((PAGE, 3, 3)), 9),
            Take(10, Some((PAGE, 1, 1)), 10),
            Take(10, Some((PAGE, 2, 2)), 10),
        ],
        // Numbers count from 1 for each actor, cleared and taken ones too.
        &[
            Set(PAGE, 1, 0, 1),
            Set(A, 1, 0, 1),
            Set(PAGE, 1, 0, 2),
            Set(B, 1, 0, 1),
            Set(A, 1, 0, 2),
        ],
        &[
            Set(PAGE, 1, 0, 1),
            Clear(PAGE, 1, true),
            Set(PAGE, 1, 0, 2),
            Clear(PAGE, 1, false),
        ],
        &[
            Set(PAGE, 1, 0, 1),
            Take(1, Some((PAGE, 1, 0)), 1),
            Set(PAGE, 1, 0, 2),
            Clear(PAGE, 2, true),
        ],
        // A cleared timer doesn't run, and the others stay.
        &[
            Set(PAGE, 1, 4, 1),
            Set(PAGE, 1, 5, 2),
            Clear(PAGE, 1, true),
            Take(1, Some((PAGE, 2, 5)), 1),
        ],
        &[
            Set(PAGE, 1, 4, 1),
            Set(PAGE, 1, 5, 2),
            Set(PAGE, 1, 6, 3),
            Clear(PAGE, 2, true),
            Clear(PAGE, 2, false),
            Take(1, Some((PAGE, 1, 4)), 1),
            Take(1, Some((PAGE, 3, 6)), 1),
            Take(1, None, 1),
        ],
        // A number of another actor's isn't meant.
        &[
            Set(PAGE, 1, 4, 1),
            Clear(A, 1, false),
            Take(1, Some((PAGE, 1, 4)), 1),
        ],
        &[
            Set(PAGE, 1, 4, 1),
            Set(A, 1, 5, 1),
            Clear(A, 1, true),
            Take(1, Some((PAGE, 1, 4)), 1),
            Take(1, None, 1),
        ],
        // One that was taken waits no longer.
        &[
            Set(PAGE, 0, 4, 1),
            Take(0, Some((PAGE, 1, 4)), 0),
            Clear(PAGE, 1, false),
            Take(0, None, 0),
        ],
        // Timers that are set meanwhile run too, from the clock of their setting.
        &[
            Set(PAGE, 10, 1, 1),
            Take(30, Some((PAGE, 1, 1)), 10),
            Set(PAGE, 20, 2, 2),
            Take(30, Some((PAGE, 2, 2)), 30),
            Advance(30),
        ],
        &[
            Set(PAGE, 10, 1, 1),
            Set(PAGE, 20, 2, 2),
            Take(20, Some((PAGE, 1, 1)), 10),
            Set(PAGE, 0, 3, 3),
            Set(PAGE, 10, 4, 4),
            Take(20, Some((PAGE, 3, 3)), 10),
            Take(20, Some((PAGE, 2, 2)), 20),
            Take(20, Some((PAGE, 4, 4)), 20),
        ],
        &[
            Set(PAGE, 10, 1, 1),
            Take(10, Some((PAGE, 1, 1)), 10),
            Set(PAGE, 1, 2, 2),
            Take(10, None, 10),
            Advance(10),
        ],
        // One timer clears another that is due.
        &[
            Set(PAGE, 1, 1, 1),
            Set(PAGE, 1, 2, 2),
            Take(9, Some((PAGE, 1, 1)), 1),
            Clear(PAGE, 2, true),
            Take(9, None, 1),
        ],
        // The clock stays where it is until it moves.
        &[
            Set(PAGE, 7, 1, 1),
            Advance(3),
            Advance(6),
            Take(6, None, 6),
            Set(PAGE, 1, 2, 2),
            Take(7, Some((PAGE, 1, 1)), 7),
        ],
        // The longest delay.
        &[
            Set(PAGE, 1_000_000_000, 1, 1),
            Advance(999_999_999),
            Take(999_999_999, None, 999_999_999),
            Take(1_000_000_000, Some((PAGE, 1, 1)), 1_000_000_000),
            Set(PAGE, 1_000_000_000, 2, 2),
            Take(2_000_000_000, Some((PAGE, 2, 2)), 2_000_000_000),
        ],
    ];
    for (run, steps) in runs.iter().enumerate() {
        let mut timers = Timers::new(rt.alloc());
        assert_eq!(rt;
            first_wrong(&rt, &mut timers, steps),
            steps.len(),
            "run {run}"
        );
    }
    Ok(())
}

/// Sets timers of an actor with one delay as long as its numbers go on.
fn fill(rt: &impl Abort, timers: &mut Timers, actor: Actor, delay: u32, count: u32) -> u32 {
    for earlier in 0..count {
        if !goes(rt, timers, Step::Set(actor, delay, earlier, earlier + 1)) {
            return earlier;
        }
    }
    count
}

#[test]
fn a_thousand_of_an_actor_wait(rt: HostRuntime) -> Result<(), Fail> {
    let mut timers = Timers::new(rt.alloc());
    assert_eq!(rt; fill(&rt, &mut timers, PAGE, 5, 1_000), 1_000);
    let steps = [
        Step::Full(PAGE),
        Step::Full(PAGE),
        Step::Set(A, 4, 7, 1),
        Step::Clear(PAGE, 1_000, true),
        Step::Set(PAGE, 5, 8, 1_001),
        Step::Full(PAGE),
        Step::Take(9, Some((A, 1, 7)), 4),
        Step::Full(PAGE),
        Step::Take(9, Some((PAGE, 1, 0)), 5),
        Step::Set(PAGE, 0, 9, 1_002),
        Step::Full(PAGE),
        Step::Take(9, Some((PAGE, 2, 1)), 5),
    ];
    assert_eq!(rt; first_wrong(&rt, &mut timers, &steps), steps.len());
    Ok(())
}

/// Timers each of which sets the next one when it runs; how many ran.
fn chain(rt: &impl Abort, timers: &mut Timers, count: u32) -> u32 {
    for earlier in 0..count {
        let number = earlier + 1;
        let upto = u64::from(number);
        if !goes(rt, timers, Step::Set(PAGE, 1, earlier, number))
            || !goes(
                rt,
                timers,
                Step::Take(upto, Some((PAGE, number, earlier)), upto),
            )
        {
            return earlier;
        }
    }
    count
}

/// The times are for `bench/run`.
#[test]
fn a_long_chain_of_timers_runs(rt: HostRuntime) -> Result<(), Fail> {
    for waiting in [0, 1_000] {
        let mut timers = Timers::new(rt.alloc());
        assert_eq!(rt; fill(&rt, &mut timers, A, 1_000_000_000, waiting), waiting);
        let began = Instant::now(&rt)?;
        let ran = chain(&rt, &mut timers, 15_000);
        let took = began.elapsed(&rt)?.as_micros();
        assert_eq!(rt; ran, 15_000);
        println!(rt; "bench: {ran} chained timers, {waiting} others that wait: {took} us")?;
    }
    Ok(())
}
