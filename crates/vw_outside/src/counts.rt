ghost use Rattle.std.specs.Prelude.{◌≡◌};
ghost use Rattle.vw_outside.specs.Memory.{next_count};

/// One more, or the same at the type's end.
pub fn one_more(count: u64) -> u64
    ensures { result ≡ next_count count }
{
    count.saturating_add(1)
}
