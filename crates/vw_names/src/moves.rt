ghost use Rattle.std.specs.Prelude.{◌≡◌, ◌≢◌, ◌<◌, ◌≤◌, ◌⊎◌, ℕ, length, MatchOption, OnOk, OnErr, vec_len, vec_capacity};
ghost use Rattle.std.specs.List.{All};
ghost use Rattle.vw_names.specs.Division.{root, IsDivision, Same, IsAlone, IsSameBut, LeavesBetween, relabeled, IsFirstUnder, IsSharedBetween};
ghost use Rattle.vw_names.specs.Spot.{IsPlaceNumber, NamesPlaces};

use crate::lookup::{count_below, find};
use vw_bits::OutOfMemory;

// Gives each place whose root is `from` the root `to`.
fn relabel(entries: &mut Vec<(u128, u128)>, from: u128, to: u128)
    ensures items { entries.new.items ≡ relabeled from to entries.old.items }
    ensures size { vec_len entries.new ≡ vec_len entries.old }
    ensures room { vec_capacity entries.new ≡ vec_capacity entries.old }
{
    for entry in entries.iter_mut() {
        if entry.1 == from {
            entry.1 = to;
        }
    }
}

// Where the first entry with a root stands.
fn first_under(entries: &[(u128, u128)], least: u128) -> Option<usize>
    ensures { MatchOption result (All (λ entry. entry.1 ≢ least) entries.now) (IsFirstUnder entries.now least) }
{
    for (i, entry) in entries.iter().enumerate() {
        if entry.1 == least {
            return Some(i);
        }
    }
    None
}

// Takes a place out of its class. Takes no memory.
pub fn leave(entries: &mut Vec<(u128, u128)>, place: u128)
    requires { IsDivision entries.old.items }
    ensures division { IsDivision entries.new.items }
    ensures alone { IsAlone entries.new.items place }
    ensures others { IsSameBut place entries.old.items entries.new.items }
    ensures names { NamesPlaces entries.old.items → NamesPlaces entries.new.items }
    ensures room { vec_capacity entries.old ≤ vec_capacity entries.new }
    ensures fewer { vec_len entries.new ≤ vec_len entries.old }
    ensures shrinks { IsAlone entries.old.items place ⊎ (vec_len entries.new < vec_len entries.old) }
{
    match find(entries, place) {
        Some(at) => {
            let _own = entries.remove(at);
        }
        None => {
            if let Some(first) = first_under(entries, place) {
                let least = entries.remove(first).0;
                relabel(entries, place, least);
            }
        }
    }
}

// A place from `low` to `high` - 1 that shares its class.
fn shared_between(entries: &[(u128, u128)], low: u128, high: u128) -> Option<u128>
    requires { IsDivision entries.now }
    ensures { MatchOption result (LeavesBetween low high entries.now entries.now) (IsSharedBetween entries.now low high) }
{
    for entry in entries {
        if low <= entry.0 && entry.0 < high {
            return Some(entry.0);
        }
        if low <= entry.1 && entry.1 < high {
            return Some(entry.1);
        }
    }
    None
}

// Takes the places from `low` to `high` - 1 out of their classes. Takes no memory.
pub fn leave_between(entries: &mut Vec<(u128, u128)>, low: u128, high: u128)
    requires { IsDivision entries.old.items }
    ensures division { IsDivision entries.new.items }
    ensures leaves { LeavesBetween low high entries.old.items entries.new.items }
    ensures names { NamesPlaces entries.old.items → NamesPlaces entries.new.items }
{
    while let Some(place) = shared_between(entries, low, high) {
        leave(entries, place);
    }
}

// Puts a place that is alone into the class whose least place is `least`. It takes memory only where there
// is no room for one more entry.
pub fn enter(entries: &mut Vec<(u128, u128)>, place: u128, least: u128) -> Result<(), OutOfMemory>
    requires division { IsDivision entries.old.items }
    requires alone { IsAlone entries.old.items place }
    requires least { root entries.old.items least ≡ least }
    requires apart { least ≢ place }
    ensures division { OnOk result (IsDivision entries.new.items) }
    ensures others { OnOk result (IsSameBut place entries.old.items entries.new.items) }
    ensures joined { OnOk result (Same entries.new.items place least) }
    ensures names { OnOk result (IsPlaceNumber place → IsPlaceNumber least → NamesPlaces entries.old.items
        → NamesPlaces entries.new.items) }
    ensures err { OnErr result (vec_len entries.old < vec_capacity entries.old → ⊥) }
{
    if least < place {
        let at = count_below(entries, place);
        entries.insert(at, (place, least))?;
    } else {
        relabel(entries, least, place);
        let at = count_below(entries, least);
        entries.insert(at, (least, place))?;
    }
    Ok(())
}
