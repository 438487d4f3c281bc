// The shares that weights have in their sum, by its reciprocal.
ghost use Rattle.std.specs.Prelude.{◌≡◌, ◌-◌, ◌*◌, ◌/◌, ◌≤◌, ◌^◌, length, sum};
ghost use Rattle.transfer_shares.specs.Shares.{shares_of};

use crate::row_total::RowTotal;
use crate::sharing::share_out;

// Writes the shares of some weights, whose sum is known.
pub(crate) fn share_quickly(weights: &[u128], total: u128, into: &mut [u32])
    requires sum { total ≡ sum weights.now }
    requires most { total ≤ 4096 * 10 ^ 25 }
    requires places { length into.old ≡ length weights.now }
    ensures { into.new ≡ shares_of weights.now }
{
    match RowTotal::new(total) {
        Some(row) => share_in(weights, &row, into),
        None => share_out(weights, total, into),
    }
}

// Writes the shares of some weights in a sum that has a reciprocal. Not inlined: the compiler would then count with the
// 128 bits that the sum came in.
#[inline(never)]
fn share_in(weights: &[u128], row: &RowTotal, into: &mut [u32])
    requires sum { row.now.total ≡ sum weights.now }
    requires places { length into.old ≡ length weights.now }
    ensures { into.new ≡ shares_of weights.now }
{
    for (i, weight) in weights.iter().enumerate() {
        into[i] = row.share(*weight as u64);
    }
}
