// The shares that weights have in their sum.
ghost use Rattle.std.specs.Prelude.{◌≡◌, ◌-◌, ◌*◌, ◌≤◌, ◌^◌, length, sum};
ghost use Rattle.transfer_shares.specs.Shares.{weight_share, shares_of};

/// What the shares of a row sum to at most: it is below 10^9, so that no row is whole.
const MOST_TOTAL: u128 = 999_999_999;

// The share that a weight has in a sum of weights.
pub(crate) fn weight_share(total: u128, weight: u128) -> u32
    requires part { weight ≤ total }
    requires most { total ≤ 4096 * 10 ^ 25 }
    ensures { result ≡ weight_share total weight }
{
    if total == 0 {
        return 0;
    }
    (weight * MOST_TOTAL / total) as u32
}

// Writes the shares of some weights, whose sum is known.
pub(crate) fn share_out(weights: &[u128], total: u128, into: &mut [u32])
    requires sum { total ≡ sum weights.now }
    requires most { total ≤ 4096 * 10 ^ 25 }
    requires places { length into.old ≡ length weights.now }
    ensures shares { into.new ≡ shares_of weights.now }
    ensures total { sum into.new ≤ 10 ^ 9 - 1 }
{
    for (i, weight) in weights.iter().enumerate() {
        into[i] = weight_share(total, *weight);
    }
}
