//! Ticks at round numbers.

ghost use Rattle.std.specs.Prelude.{◌≡◌, ◌++◌, ◌≤ℤ◌, IfOk, OnOk, pos};
ghost use Rattle.clr_drawing.specs.Ticks.{beyond, first_tick, tick_at, ticks_of, up_to};

use std::alloc::{AllocError, Global};

/// The most ticks along an axis.
const MOST_TICKS: u16 = 64;

/// The most digits of a step.
const MOST_DIGITS: u32 = 15;

/// Returns the greatest power of ten that is at most a number, and at least 1.
fn power_of_ten(most: i64) -> i64 {
    let mut power = 1i64;
    for _ in 0..MOST_DIGITS {
        let next = power.saturating_mul(10);
        if next <= most {
            power = next;
        }
    }
    power
}

/// Returns the greatest number of the form 1, 2 or 5 with noughts behind it that is at most a number, and at least 1.
pub fn round_step(most: i64) -> i64
    ensures { pos 1 ≤ℤ result }
{
    let power = power_of_ten(most);
    let step = if power.saturating_mul(5) <= most {
        power.saturating_mul(5)
    } else if power.saturating_mul(2) <= most {
        power.saturating_mul(2)
    } else {
        power
    };
    step.max(1)
}

/// Returns how far a number is beyond the multiple of a step before it.
#[tactic(auto, unfolding(crate::specs::Ticks::beyond))]
fn beyond(number: i64, step: i64) -> i64
    ensures { result ≡ beyond number step }
{
    if step > 0 { number.rem_euclid(step) } else { 0 }
}

/// Returns the least multiple of a step that is at least a number.
#[tactic(auto, unfolding(crate::specs::Ticks::first_tick))]
fn first_tick(low: i64, step: i64) -> i64
    ensures { result ≡ first_tick low step }
{
    let over = beyond(low, step);
    if over == 0 {
        return low;
    }
    low.saturating_add(step.saturating_sub(over))
}

/// Returns the number that is this many steps behind another.
#[tactic(auto, unfolding(crate::specs::Ticks::tick_at))]
fn tick_at(first: i64, step: i64, number: u16) -> i64
    ensures { result ≡ tick_at first step number }
{
    first.saturating_add(step.saturating_mul(i64::from(number)))
}

/// Adds the tick of a number, counted from 0, if it is at most the greatest.
fn add_tick(
    list: &mut Vec<i64>,
    low: i64,
    high: i64,
    step: i64,
    number: u16,
) -> Result<(), AllocError>
    ensures { OnOk result (list.new.items ≡ list.old.items ++ up_to high (tick_at (first_tick low step) step number)) }
{
    let tick = tick_at(first_tick(low, step), step, number);
    if tick <= high {
        list.push(tick)?;
    }
    Ok(())
}

/// Returns the multiples of a step between two numbers, these included, of which it gives at most 64.
#[tactic(auto, using(crate::proofs::TickLemmas::next_tick, crate::proofs::TickLemmas::no_tick))]
pub fn ticks(alloc: Global, low: i64, high: i64, step: i64) -> Result<Vec<i64>, AllocError>
    ensures { IfOk result (λ list. list.items ≡ ticks_of low high step) }
{
    let mut list = Vec::new(alloc);
    for number in 0..MOST_TICKS {
        add_tick(&mut list, low, high, step, number)?;
    }
    Ok(list)
}
