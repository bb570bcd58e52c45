ghost use Rattle.std.specs.Prelude.{◌≡◌};
ghost use Rattle.vw_names.specs.Spot.{number, slot_number, IsPlaceNumber};

/// A place that holds a value. Places are ordered: the registers by their numbers, the flags, the slots by
/// their offsets.
#[derive(Clone, Copy, Debug, PartialEq, Eq)]
pub enum Spot {
    /// The register with this number.
    Reg(u8),
    /// What the flags were last set by: the first operand of a comparison.
    Flags,
    /// The slot of the frame at this offset.
    Slot(i64),
}

// The number of a slot.
fn slot_number_of(offset: i64) -> u128
    ensures { result ≡ slot_number offset }
{
    if offset >= 0 {
        (1 << 64) + offset as u128
    } else {
        (1 << 64) - 1 - (-1 - offset) as u128
    }
}

// A place's number. The order of numbers is that of places.
pub fn number_of(spot: Spot) -> u128
    ensures number { result ≡ number spot }
    ensures place { IsPlaceNumber result }
{
    match spot {
        Spot::Reg(register) => register as u128,
        Spot::Flags => 256,
        Spot::Slot(offset) => slot_number_of(offset),
    }
}

// The place with a number.
pub fn spot_of(place: u128) -> Spot
    requires { IsPlaceNumber place }
    ensures { number result ≡ place }
{
    if place < 256 {
        Spot::Reg(place as u8)
    } else if place == 256 {
        Spot::Flags
    } else if place >= 1 << 64 {
        Spot::Slot((place - (1 << 64)) as i64)
    } else {
        Spot::Slot(-1 - ((1 << 64) - 1 - place) as i64)
    }
}

/// Two places with one number are one place.
pub fn places_have_own_numbers(a: Spot, b: Spot)
    ensures { number a ≡ number b → a ≡ b }
{}
