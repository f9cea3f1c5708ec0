//! The linear congruence that draws numbers.

ghost use Rattle.std.specs.Prelude.{◌≡◌, ◌<◌};
ghost use Rattle.pascal_samples.specs.Draws.{below, next};

const MULTIPLIER: u128 = 6_364_136_223_846_793_005;

const INCREMENT: u128 = 1_442_695_040_888_963_407;

/// The state after this one.
pub(crate) fn next(state: u64) -> u64
    ensures { result ≡ next state }
{
    ((state as u128 * MULTIPLIER + INCREMENT) % (1 << 64)) as u64
}

/// The number below `bound` that a state gives.
pub(crate) fn below(bound: u64, state: u64) -> u64
    requires { 0 < bound }
    ensures { result ≡ below bound state }
{
    state / (1 << 33) % bound
}
