ghost use Rattle.std.specs.Prelude.{◌≡◌, ◌<◌, ◌≤ℤ◌, All, IfOk};
ghost use Rattle.load_shares.specs.declared.share.Share.{Share};
ghost use Rattle.load_shares.specs.Shares.{end_share, share_at, shares_of, total};

use crate::share::Share;
use std::alloc::{AllocError, Global};

/// The shares of a load over so many pin pieces, in their order. Each end gives every piece an equal part, rounded towards 0,
/// and the first pieces one unit more, away from 0, until nothing is left.
pub fn shares(alloc: Global, load: Share, count: u32) -> Result<Vec<Share>, AllocError>
    requires { 0 < count }
    ensures each { IfOk result (λ shares. shares.items ≡ shares_of load count) }
    ensures low { IfOk result (λ shares. total (λ (s : Share). s.low) shares.items ≡ load.low) }
    ensures high { IfOk result (λ shares. total (λ (s : Share). s.high) shares.items ≡ load.high) }
    ensures in_order { load.low ≤ℤ load.high → IfOk result (λ shares. All (λ (s : Share). s.low ≤ℤ s.high) shares.items) }
{
    let mut shares = Vec::new(alloc);
    for place in 0..count {
        shares.push(share_at(load, count, place))?;
    }
    Ok(shares)
}

fn share_at(load: Share, count: u32, place: u32) -> Share
    requires { 0 < count }
    ensures { result ≡ share_at load count place }
{
    Share {
        low: end_share(load.low, count, place),
        high: end_share(load.high, count, place),
    }
}

// The share of one end of a load.
fn end_share(whole: i64, count: u32, place: u32) -> i64
    requires { 0 < count }
    ensures { result ≡ end_share whole count place }
{
    let part = whole / i64::from(count);
    let rest = whole % i64::from(count);
    if i64::from(place) < rest {
        part + 1
    } else if i64::from(place) < -rest {
        part - 1
    } else {
        part
    }
}
