//! Draws.

ghost use Rattle.std.specs.Prelude.{◌≡◌, ◌<◌};
ghost use Rattle.ft_gen.specs.Draws.{draw, next_state, state_after};

// The state after `state`.
fn next_state(state: u64) -> u64
    ensures { result ≡ next_state state }
{
    state
        .wrapping_mul(6_364_136_223_846_793_005)
        .wrapping_add(1_442_695_040_888_963_407)
}

/// One of `m` numbers from 0 on. The state becomes the next one.
pub fn draw(state: &mut u64, m: u64) -> u64
    requires { 0 < m }
    ensures value { result ≡ draw m state.old }
    ensures state { state.new ≡ next_state state.old }
    ensures range { result < m }
{
    *state = next_state(*state);
    (*state >> 33) % m
}

/// So many draws, whose numbers go unused.
pub fn skip(state: &mut u64, count: u64)
    ensures { state.new ≡ state_after count state.old }
{
    for _i in 0..count {
        let _ = draw(state, 1);
    }
}
