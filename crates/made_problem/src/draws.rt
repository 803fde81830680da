// The numbers that are drawn.
ghost use Rattle.std.specs.Prelude.{◌≡◌, IfOk};
ghost use Rattle.made_problem.specs.Draws.{next_state, drawn, state_of, fourth_state, every_fourth};

use std::alloc::{AllocError, Global};

/// So many draws, each the fourth behind the one before it; the first of them is the draw of this number.
pub(crate) fn every_fourth(alloc: Global, number: u32, count: u32) -> Result<Vec<u32>, AllocError>
    ensures { IfOk result (λ draws. draws.items ≡ every_fourth (state_of number) count) }
{
    let mut draws = Vec::new(alloc);
    let mut state = state_of(number);
    for _draw in 0..count {
        draws.push(drawn(state))?;
        state = fourth_state(state);
    }
    Ok(draws)
}

// The state of the draw of this number.
fn state_of(number: u32) -> u32
    ensures { result ≡ state_of number }
{
    let mut state = 1;
    for _draw in 0..number {
        state = next_state(state);
    }
    state
}

fn fourth_state(state: u32) -> u32
    ensures { result ≡ fourth_state state }
{
    next_state(next_state(next_state(next_state(state))))
}

// The state behind a state: a linear congruential generator, whose states are below 2^31.
fn next_state(state: u32) -> u32
    ensures { result ≡ next_state state }
{
    ((state as u64 * 1_103_515_245 + 12_345) % 2_147_483_648) as u32
}

// The number that is drawn at a state, from 1 to 9.
fn drawn(state: u32) -> u32
    ensures { result ≡ drawn state }
{
    state / 65_536 % 9 + 1
}
