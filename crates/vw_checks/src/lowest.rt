ghost use Rattle.std.specs.Prelude.{◌≡◌, if◌then◌else◌};
ghost use Rattle.vw_checks.specs.Checks.{lower};

/// The lower of two numbers of checks, where both are there, and else the one that is.
pub(crate) fn lower(first: Option<u8>, second: Option<u8>) -> Option<u8>
    ensures { result ≡ lower first second }
{
    match (first, second) {
        (Some(a), Some(b)) => Some(a.min(b)),
        (Some(a), None) => Some(a),
        (None, second) => second,
    }
}

/// A number, where a check fails.
pub(crate) fn number_where(fails: bool, number: u8) -> Option<u8>
    ensures { result ≡ (if fails then Some number else None) }
{
    if fails { Some(number) } else { None }
}

/// A number, where a check does not pass.
pub(crate) fn number_unless(passes: bool, number: u8) -> Option<u8>
    ensures { result ≡ (if passes then None else Some number) }
{
    if passes { None } else { Some(number) }
}
