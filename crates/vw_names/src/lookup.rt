ghost use Rattle.std.specs.Prelude.{◌≡◌, ◌<◌, ◌≤◌, length, MatchOption};
ghost use Rattle.std.specs.List.{AllWithin};
ghost use Rattle.vw_names.specs.Division.{root, IsAscending, HasEntryAt};

// The number of entries whose places are below `place`.
pub fn count_below(entries: &[(u128, u128)], place: u128) -> usize
    requires { IsAscending entries.now }
    ensures within { result ≤ length entries.now }
    ensures below { AllWithin (λ entry. entry.0 < place) entries.now 0 result }
    ensures above { AllWithin (λ entry. place ≤ entry.0) entries.now result (length entries.now) }
{
    let mut low = 0;
    let mut high = entries.len();
    while low < high {
        let middle = low + (high - low) / 2;
        if entries[middle].0 < place {
            low = middle + 1;
        } else {
            high = middle;
        }
    }
    low
}

// Where the entry of a place stands.
pub fn find(entries: &[(u128, u128)], place: u128) -> Option<usize>
    requires { IsAscending entries.now }
    ensures { MatchOption result (root entries.now place ≡ place) (HasEntryAt entries.now place) }
{
    let at = count_below(entries, place);
    if at < entries.len() && entries[at].0 == place {
        Some(at)
    } else {
        None
    }
}

// The least place of a place's class.
pub fn root_of(entries: &[(u128, u128)], place: u128) -> u128
    requires { IsAscending entries.now }
    ensures { result ≡ root entries.now place }
{
    match find(entries, place) {
        Some(at) => entries[at].1,
        None => place,
    }
}
