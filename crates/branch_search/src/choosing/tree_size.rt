//! How large a tree gets that closes what is lacking by splits of which each part takes off a share.
//!
//! Shares are in parts of 1024, sizes are logarithms to the base 2 in parts of 16.
ghost use Rattle.std.specs.Prelude.{◌≤◌};

/// The share of a part that is closed at once.
const CLOSED: u64 = 1_048_576;

/// The size of a tree that is given up.
pub(crate) const ENDLESS: u64 = 1_048_576;

/// The share that a cost takes off what is lacking.
pub(crate) fn share_of(cost: i128, lacking: i128) -> u64 {
    if lacking <= cost {
        return CLOSED;
    }
    let unit = (lacking / 1024).max(1);
    (cost / unit).clamp(0, 1024) as u64
}

/// About 2^24 divided by 2^(k/64).
fn fraction(k: u64) -> u64 {
    let whole = k / 64;
    if whole > 24 {
        return 0;
    }
    let rest = k % 64;
    let straight = 16_777_216u64.saturating_sub(rest.saturating_mul(172_097));
    let curved = rest.saturating_mul(rest).saturating_mul(641);
    straight.saturating_add(curved) >> whole
}

/// Whether a tree of this size closes what is lacking, where the parts of its splits take off these shares.
fn is_closed_by(shares: &[u64], size: u64) -> bool {
    let mut sum: u64 = 0;
    for share in shares {
        sum = sum.saturating_add(fraction(share.saturating_mul(size) / 256));
    }
    sum <= 16_777_216
}

/// The least size that does, up to `most`.
pub(crate) fn tree_size(shares: &[u64], most: u64) -> u64
    ensures { result ≤ most }
{
    let mut low: u64 = 0;
    let mut high = most;
    while low < high {
        let middle = low + (high - low) / 2;
        if is_closed_by(shares, middle) {
            high = middle;
        } else {
            low = middle + 1;
        }
    }
    high
}
