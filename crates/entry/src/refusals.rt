// The checks on entry, refusals 5 to 11, 14 and 17, in stages by what they look at.
ghost use Rattle.std.specs.Prelude.{◌≡◌, Bool, cond, ◌/◌, ◌≤◌, length, IfOk};
ghost use Rattle.panel.specs.declared.Spot.{Spot};
ghost use Rattle.panel.specs.Spots.{spot_numbers};
ghost use Rattle.refusal.specs.Number.{number_given};
ghost use Rattle.entry.specs.Check.{lawful_component, lawful_place, lawful_weight, every_spot, every, divides, few, rotation_fits, numbers_fit, weights_fit, named, long};
ghost use Rattle.entry.specs.Check.{counts_refused, measures_refused, numbers_refused, weights_refused, refusal_of};
ghost use Rattle.entry.specs.Entry.{row_fits};

use crate::bounds::{
    Bounded, Component, Coordinate, Cut, Directions, Matches, Radius, Rounds, Scale, Spots, Weight,
};
use panel::{SPOT_NUMBERS, Spot, spot_at};
use refusal::Refusal;

// How many spots, starting matches and directions a call lists: few, as 6 asks.
#[derive(Clone, Copy)]
struct Listed {
    spots: usize,
    matches: usize,
    directions: usize,
    ghost few: { (spots ≤ 4096) × (matches ≤ 4096) × (directions ≤ 65536) },
}

// The lengths of the lists that a call writes to and 11 looks at.
#[derive(Clone, Copy)]
struct Room {
    numbers: usize,
    floats: usize,
    result_list: usize,
}

// 5, from the lists' lengths.
// Stays (no plainer): the lengths come one by one until `counts` has found them few, and one `Listed` after it.
#[tactic(auto, unfolding(crate::specs::Check::divides))]
fn divides(spots: usize, matches: usize, directions: usize) -> bool
    ensures { result ≡ divides spots matches directions }
{
    spots % SPOT_NUMBERS == 0 && matches % 2 == 0 && directions % 3 == 0
}

// 6, from the counts.
#[tactic(auto, unfolding(crate::specs::Check::few))]
fn are_few(spots: usize, matches: usize, directions: usize, rounds: usize) -> bool
    ensures { result ≡ few spots matches directions rounds }
{
    Spots::of(spots).is_lawful()
        && Matches::of(matches).is_lawful()
        && Directions::of(directions).is_lawful()
        && Rounds::of(rounds).is_lawful()
}

// The test of every spot of a list.
fn every_spot<F: Fn(Spot) -> bool>(spots: &[f64], test: F) -> bool
    requires { F.IsAlwaysCallable test }
    ensures { (p : Spot → Bool) → ((s : Spot) (b : Bool) → F.post test s b → b ≡ p s)
        → result ≡ every_spot p spots.now 0 (length spots.now / spot_numbers) }
{
    for i in 0..spots.len() / SPOT_NUMBERS {
        if !test(spot_at(spots, i)) {
            return false;
        }
    }
    true
}

fn are_lawful(components: &[f32]) -> bool
    ensures { result ≡ every lawful_component components.now }
{
    for &x in components {
        if !Component(x).is_lawful() {
            return false;
        }
    }
    true
}

#[tactic(auto, unfolding(crate::specs::Entry::row_fits))]
fn row_fits(row: [f32; 3]) -> bool
    ensures { result ≡ row_fits row }
{
    Component(row[0]).is_lawful() && Component(row[1]).is_lawful() && Component(row[2]).is_lawful()
}

#[tactic(auto, unfolding(crate::specs::Check::rotation_fits, crate::specs::Entry::row_fits))]
fn rotation_fits(rotation: [[f32; 3]; 3]) -> bool
    ensures { result ≡ rotation_fits rotation }
{
    row_fits(rotation[0]) && row_fits(rotation[1]) && row_fits(rotation[2])
}

fn place_fits(s: Spot) -> bool
    ensures { result ≡ lawful_place s }
{
    Coordinate(s.px).is_lawful() && Coordinate(s.py).is_lawful()
}

fn weight_fits(s: Spot) -> bool
    ensures { result ≡ lawful_weight s }
{
    Weight(s.weight).is_lawful()
}

// 9, every number but the weights.
// Stays (no plainer): each check takes the lists that it reads, so that its contract is about no others.
#[tactic(auto, unfolding(crate::specs::Check::numbers_fit))]
fn numbers_fit(spots: &[f64], directions: &[f32], rotation: [[f32; 3]; 3]) -> bool
    ensures { result ≡ numbers_fit spots.now directions.now rotation }
{
    every_spot(spots, place_fits) && are_lawful(directions) && rotation_fits(rotation)
}

// 17.
#[tactic(auto, unfolding(crate::specs::Check::weights_fit))]
fn weights_fit(spots: &[f64]) -> bool
    ensures { result ≡ weights_fit spots.now }
{
    every_spot(spots, weight_fits)
}

// 10, every starting match: a spot, then a direction.
fn are_named(matches: &[usize], spots: usize, directions: usize) -> bool
    ensures { result ≡ named spots directions matches.now }
{
    for &[spot, direction] in matches.as_chunks::<2>().0 {
        if spots <= spot || directions <= direction {
            return false;
        }
    }
    true
}

// 11.
#[tactic(auto, unfolding(crate::specs::Check::long))]
fn are_long(n: Listed, limit: usize, room: Room) -> bool
    ensures { result ≡ long n.spots n.matches n.directions limit room.numbers room.floats room.result_list }
{
    let work = 16 * (n.spots + n.matches + n.directions);
    let results = 2 * n.matches.max(n.spots.min(limit));
    work <= room.numbers && work <= room.floats && results <= room.result_list
}

// 5 and 6, from the lists' lengths.
#[tactic(auto, unfolding(crate::specs::Check::counts_refused))]
fn counts(spots: usize, matches: usize, directions: usize, rounds: usize) -> Result<Listed, Refusal>
    ensures number { number_given result ≡ counts_refused spots matches directions rounds }
    ensures counts { IfOk result (λ n. (n.spots ≡ spots / spot_numbers) × (n.matches ≡ matches / 2) × (n.directions ≡ directions / 3)) }
{
    if !divides(spots, matches, directions) {
        return Err(Refusal::Uneven);
    }
    let n = spots / SPOT_NUMBERS;
    let m = matches / 2;
    let d = directions / 3;
    if !are_few(n, m, d, rounds) {
        return Err(Refusal::TooMany);
    }
    Ok(Listed {
        spots: n,
        matches: m,
        directions: d,
    })
}

// 7, 8 and 14.
#[tactic(auto, unfolding(crate::specs::Check::measures_refused, crate::specs::Check::scale_fits, crate::specs::Check::radius_fits, crate::specs::Check::cut_fits))]
fn measures(scale: f64, radius: f32, cut: f64) -> Result<(), Refusal>
    ensures { number_given result ≡ measures_refused scale radius cut }
{
    if !Scale(scale).is_lawful() {
        return Err(Refusal::Scale);
    }
    if !Radius(radius).is_lawful() {
        return Err(Refusal::Radius);
    }
    if !Cut(cut).is_lawful() {
        return Err(Refusal::Cut);
    }
    Ok(())
}

// 9.
// Stays (no plainer): as `numbers_fit`, whose lists it takes.
#[tactic(auto, unfolding(crate::specs::Check::numbers_refused))]
fn numerals(spots: &[f64], directions: &[f32], rotation: [[f32; 3]; 3]) -> Result<(), Refusal>
    ensures { number_given result ≡ numbers_refused spots.now directions.now rotation }
{
    if !numbers_fit(spots, directions, rotation) {
        return Err(Refusal::Coordinate);
    }
    Ok(())
}

// 17.
#[tactic(auto, unfolding(crate::specs::Check::weights_refused))]
fn weights(spots: &[f64]) -> Result<(), Refusal>
    ensures { number_given result ≡ weights_refused spots.now }
{
    if !weights_fit(spots) {
        return Err(Refusal::Weight);
    }
    Ok(())
}

// 10 and 11.
fn names(matches: &[usize], n: Listed, limit: usize, room: Room) -> Result<(), Refusal>
    ensures { number_given result ≡ cond (named n.spots n.directions matches.now)
        (cond (long n.spots n.matches n.directions limit room.numbers room.floats room.result_list) 0 11)
        10 }
{
    if !are_named(matches, n.spots, n.directions) {
        return Err(Refusal::UnknownMatch);
    }
    if are_long(n, limit, room) {
        return Ok(());
    }
    Err(Refusal::ShortList)
}

// The first check that fails. Of the lists of numbers, floats and results only the lengths count.
// A function by itself: as a part of the call, what a refusal answers is made ready for each component that is looked at.
// Stays (form of 01): the lists and numbers of a call come flat, each by itself, in the call's own order.
#[inline(never)]
#[tactic(auto, unfolding(crate::specs::Check::refusal_of, crate::specs::Check::names_refused))]
pub fn refusal_of(
    spots: &[f64],
    matches: &[usize],
    directions: &[f32],
    rotation: [[f32; 3]; 3],
    scale: f64,
    radius: f32,
    cut: f64,
    limit: usize,
    rounds: usize,
    numbers: usize,
    floats: usize,
    result_list: usize,
) -> Result<(), Refusal>
    ensures { number_given result
        ≡ refusal_of spots.now matches.now directions.now rotation scale radius cut
        limit rounds numbers floats result_list }
{
    let n = counts(spots.len(), matches.len(), directions.len(), rounds)?;
    measures(scale, radius, cut)?;
    numerals(spots, directions, rotation)?;
    weights(spots)?;
    let room = Room {
        numbers,
        floats,
        result_list,
    };
    names(matches, n, limit, room)
}
