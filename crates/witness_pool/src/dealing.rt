//! Items dealt in turns into shares, and gathered again in their first order.

ghost use Rattle.std.specs.Prelude.{◌≡◌, ◌≢◌, List, [], Some, length, map, replicate, IfOk, OnOk};
ghost use Rattle.witness_pool.specs.Dealing.{all_dealt, dealt};

use std::alloc::{AllocError, Global};
use std::collections::VecDeque;

/// One more item for the share whose turn it is.
fn deal_one<T: Drop>(shares: &mut VecDeque<Vec<T>>, item: T) -> Result<(), AllocError>
    ensures { OnOk result (map (λ s. s.items) shares.new.items ≡ dealt item (map (λ s. s.items) shares.old.items)) }
{
    if let Some(mut share) = shares.pop_front() {
        share.push(item)?;
        shares.push_back(share)?;
    }
    Ok(())
}

/// `count` shares without items.
fn no_shares<T: Drop>(alloc: Global, count: usize) -> Result<VecDeque<Vec<T>>, AllocError>
    ensures { IfOk result (λ shares. map (λ s. s.items) shares.items ≡ replicate count []) }
{
    let mut shares = VecDeque::with_capacity(alloc, count)?;
    for _ in 0..count {
        shares.push_back(Vec::new(alloc))?;
    }
    Ok(shares)
}

/// Items dealt in turns into `count` shares.
pub fn deal<T: Drop>(
    alloc: Global,
    count: usize,
    items: Vec<T>,
) -> Result<VecDeque<Vec<T>>, AllocError>
    ensures { IfOk result (λ shares.
        map (λ s. s.items) shares.items ≡ all_dealt items.items (replicate count [])) }
{
    let mut shares = no_shares(alloc, count)?;
    for item in items {
        deal_one(&mut shares, item)?;
    }
    Ok(shares)
}

/// The item that was dealt last, which is taken out of its share.
fn gather_one<T: Drop>(shares: &mut VecDeque<Vec<T>>) -> Result<Option<T>, AllocError>
    ensures { IfOk result (λ item. (x : T) (before : List (List T)) → before ≢ []
        → map (λ s. s.items) shares.old.items ≡ dealt x before
        → (item ≡ Some x) × (map (λ s. s.items) shares.new.items ≡ before)) }
{
    let Some(mut share) = shares.pop_back() else {
        return Ok(None);
    };
    let item = share.pop();
    shares.push_front(share)?;
    Ok(item)
}

/// `count` items that were dealt into shares, in the order in which they were dealt.
pub fn gather<T: Drop>(
    alloc: Global,
    mut shares: VecDeque<Vec<T>>,
    count: usize,
) -> Result<Vec<T>, AllocError>
    ensures { IfOk result (λ all. (xs : List T) (before : List (List T)) → before ≢ [] → length xs ≡ count
        → map (λ s. s.items) shares.items ≡ all_dealt xs before → all.items ≡ xs) }
{
    let mut all = Vec::with_capacity(alloc, count)?;
    for _ in 0..count {
        if let Some(item) = gather_one(&mut shares)? {
            all.push(item)?;
        }
    }
    all.reverse();
    Ok(all)
}
