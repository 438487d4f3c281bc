// Rules that pick one of the places whose value reaches a threshold.
ghost use Rattle.std.specs.Prelude.{◌≡◌, ◌<◌, ◌+◌, ◌++◌, IfSome, length};
ghost use Rattle.picker.specs.Greatest.{greatest_value};
ghost use Rattle.picker.specs.Picks.{first_reaching, greatest_pick, sweep_pick, striped_pick, IsPick};

/// The first place of the greatest value, where that value reaches the threshold. None where no value does, as for no
/// values. The values and the threshold have one unit, as nanolumens.
pub fn greatest(values: &[u64], threshold: u64) -> Option<usize>
    ensures place { result ≡ greatest_pick values.now threshold }
    ensures pick { IsPick values.now threshold result }
{
    let most = greatest_value(values);
    if most < threshold {
        return None;
    }
    first_reaching(values, most)
}

// The greatest value, 0 where there are none. The place is looked for apart, since the compiler makes faster code of each
// of the two passes than of one that keeps both.
fn greatest_value(values: &[u64]) -> u64
    ensures { result ≡ greatest_value values.now }
{
    let mut most = 0;
    for value in values {
        if *value > most {
            most = *value;
        }
    }
    most
}

/// The first place whose value reaches the threshold, from place `offset` modulo the length on, round past the end to
/// the places before it. None where no value does, as for no values. Any offset will do.
pub fn sweep(offset: usize, values: &[u64], threshold: u64) -> Option<usize>
    ensures place { result ≡ sweep_pick offset values.now threshold }
    ensures pick { IsPick values.now threshold result }
{
    if values.is_empty() {
        return None;
    }
    let start = offset % values.len();
    let (before, after) = values.split_at(start);
    let place = first_of_both(after, before, threshold)?;
    Some((start + place) % values.len())
}

// The first place whose value reaches the threshold in two lists, one after the other.
fn first_of_both(values: &[u64], others: &[u64], threshold: u64) -> Option<usize>
    ensures place { result ≡ first_reaching (values.now ++ others.now) threshold }
    ensures inside { IfSome result (λ place. place < length values.now + length others.now) }
{
    values
        .iter()
        .chain(others.iter())
        .position(|value| *value >= threshold)
}

/// The first place that is `k` modulo `m` and whose value reaches the threshold, else the first place whose value
/// reaches it. None where no value does, as for no values.
pub fn striped(k: usize, m: usize, values: &[u64], threshold: u64) -> Option<usize>
    requires { k < m }
    ensures place { result ≡ striped_pick k m values.now threshold }
    ensures pick { IsPick values.now threshold result }
{
    let mut place = k;
    while place < values.len() {
        if values[place] >= threshold {
            return Some(place);
        }
        place = place.saturating_add(m);
    }
    first_reaching(values, threshold)
}

// The first place whose value reaches the threshold.
fn first_reaching(values: &[u64], threshold: u64) -> Option<usize>
    ensures { result ≡ first_reaching values.now threshold }
{
    values.iter().position(|value| *value >= threshold)
}
