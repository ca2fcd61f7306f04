// A trial load that anyone can repeat: see loading/specs/Loading.antt.
#![tactic(auto)]

ghost use Rattle.std.specs.Prelude.{◌≡◌, ◌≤◌, nat_abs};
ghost use Rattle.rules.specs.Rules.{highest, largest_value};
ghost use Rattle.loading.specs.Loading.{next_draw, drawn_point, drawn_second, drawn_opening, drawn_value, placed_value, values_drawn};
ghost use Rattle.loading.specs.Loading.{held_part, is_seed, load_of};
ghost use Rattle.loading.specs.Claims.{EveryLoad};

use held::{Entered, Search};
use rules::{Opening, Report};

// The draw after this one, or the first one after a seed.
pub fn next_draw(last: u32) -> u32
    ensures { result ≡ next_draw last }
{
    (loading::MULTIPLIER * last as u64 % loading::MODULUS) as u32
}

// The point that a draw gives.
fn drawn_point(draw: u32) -> u32
    ensures { result ≡ drawn_point draw }
{
    draw % loading::POINTS
}

// The second end, which is another point than the first.
fn drawn_second(x0: u32, draw: u32) -> u32
    requires { x0 ≤ highest }
    ensures { result ≡ drawn_second x0 draw }
{
    let point = drawn_point(draw);
    if point == x0 {
        return (x0 + 1) % loading::POINTS;
    }
    point
}

// The opening that four draws give.
fn drawn_opening(a: u32, b: u32, c: u32, d: u32) -> Opening
    ensures { result ≡ drawn_opening a b c d }
{
    let x0 = drawn_point(a);
    let x1 = drawn_second(x0, b);
    let first = x0 as i32;
    let second = x1 as i32;
    let tolerance = (1 + c % loading::TOLERANCES) as i32;
    let method = (1 + d % loading::METHODS) as i32;
    Opening {
        method,
        first,
        second,
        tolerance,
        share: 0,
    }
}

// The value that a draw gives.
fn drawn_value(draw: u32) -> i32
    ensures { result ≡ drawn_value draw }
{
    (draw % loading::VALUES) as i32 - loading::ON_TARGET
}

// The value v at a place, counted from 0, where the first is u: a second one of the first's strict sign is negated.
fn placed_value(place: u32, u: i32, v: i32) -> i32
    requires { nat_abs v ≤ largest_value }
    ensures { result ≡ placed_value place u v }
{
    if place != 1 {
        return v;
    }
    if refusals::same_side(u, v) {
        return 0 - v;
    }
    v
}

// The load of a seed: a fresh search, into which values are entered until it calls for no point.
fn draw_load(seed: u32) -> Entered
    ensures { result ≡ held_part seed (values_drawn seed) }
{
    let a = next_draw(seed);
    let b = next_draw(a);
    let c = next_draw(b);
    let d = next_draw(c);
    let mut draw = next_draw(d);
    let first_value = drawn_value(draw);
    let mut load = Search::fresh(drawn_opening(a, b, c, d));
    while let Report::Next { point, taken } = load.report {
        let value = placed_value(taken, first_value, drawn_value(draw));
        load = load.search.enter(point as i32, value);
        draw = next_draw(draw);
    }
    load
}

// Whether a number is from 1 to 2,147,483,646.
fn is_seed(seed: u32) -> bool
    ensures { result ≡ is_seed seed }
{
    1 <= seed && seed <= loading::LARGEST_SEED
}

// The load of a seed and its report. A number that is no seed is refused, 20, and beside that stands a blank. The claim on every load holds.
pub fn load(seed: u32) -> Entered
    ensures value { result ≡ load_of seed }
    ensures every_load { EveryLoad }
{
    if is_seed(seed) {
        return draw_load(seed);
    }
    Entered {
        report: Report::Refused {
            number: rules::SEED_OUT_OF_RANGE,
            place: 0,
        },
        search: Search::blank(),
    }
}
