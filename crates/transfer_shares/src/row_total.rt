// The sum of a row's weights, by which many of them are divided.
ghost use Rattle.std.specs.Prelude.{◌≡◌, ◌*◌, ◌^◌, ◌<◌, ◌≤◌, IfSome};

/// What the shares of a row sum to at most, as in `sharing`.
const MOST_TOTAL: u128 = 999_999_999;

/// The sum of a row's weights, from 2^30 to 2^61, with its reciprocal: a quotient by it costs no division.
#[derive(Clone, Copy)]
pub(crate) struct RowTotal {
    total: u64,
    inverse: u64,
    ghost least: { 2 ^ 30 ≤ total },
    ghost limited: { total < 2 ^ 61 },
    ghost below: { inverse * total ≤ 2 ^ 93 },
}

impl RowTotal {
    ghost use Rattle.transfer_shares.specs.Shares.{weight_share};

    // The sum with its reciprocal, where it is within the limits.
    pub(crate) fn new(total: u128) -> Option<RowTotal>
        ensures { IfSome result (λ row. row.total ≡ total) }
    {
        if !(1 << 30..1 << 61).contains(&total) {
            return None;
        }
        Some(RowTotal {
            total: total as u64,
            inverse: ((1u128 << 93) / total) as u64,
        })
    }

    // The share that a weight has in the sum. The reciprocal gives a quotient that is at most two too low.
    pub(crate) fn share(&self, weight: u64) -> u32
        requires { weight ≤ self.now.total }
        ensures { result ≡ weight_share self.now.total weight }
    {
        let total = u128::from(self.total);
        let whole = u128::from(weight) * MOST_TOTAL;
        let mut share = self.quotient_below(whole);
        while whole - u128::from(share) * total >= total {
            share += 1;
        }
        share as u32
    }

    // A number that is at most the quotient of another by the sum.
    fn quotient_below(&self, whole: u128) -> u64
        requires { whole < 2 ^ 91 }
        ensures { result * self.now.total ≤ whole }
    {
        ((u128::from((whole >> 29) as u64) * u128::from(self.inverse)) >> 64) as u64
    }
}
