ghost use Rattle.std.specs.Prelude.{◌≡◌};
ghost use Rattle.vw_machine.specs.World.{is_within, touches};

// Whether `size` bytes from an address lie wholly in the range from `from` to, and without, `to`.
pub(crate) fn is_within(at: u64, size: u32, from: u64, to: u64) -> bool
    ensures { result ≡ is_within at size (record { from = from; to = to }) }
{
    from <= at && at <= to && size as u64 <= to - at
}

// Whether one of them lies in it.
pub(crate) fn touches(at: u64, size: u32, from: u64, to: u64) -> bool
    ensures { result ≡ touches at size (record { from = from; to = to }) }
{
    at < to && (from < at || from - at < size as u64)
}
