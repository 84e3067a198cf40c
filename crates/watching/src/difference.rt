//! What a block changed.

ghost use Rattle.std.specs.Prelude.{◌≡◌, ◌↔◌, ◌≤◌, ℕ, ◌∷◌, length, take, drop, IsTrue};
ghost use Rattle.std.specs.Prelude.{IfOk, OnOk, OnErr, IfSome, IfNone};
ghost use Rattle.block.specs.View.{tip_of};
ghost use Rattle.ident.specs.PointView.{point_of};
ghost use Rattle.watching.specs.Chains.{point_at};
ghost use Rattle.watching.specs.Changes.{before_blocks, tip_back};
ghost use Rattle.watching.specs.View.{tables_of};

use crate::change::{Change, all_put_back};
use crate::tables::Tables;
use block::Tip;
use ident::Point;
use std::alloc::AllocError;
use std::collections::LinkedList;
use std::marker::Model;

/// What a block changed: where the chain ended before it, and its changes, in their order.
#[derive(Drop)]
pub struct Difference {
    pub tip: Tip,
    pub changes: Vec<Change>,
}

impl Model for Difference {
    ghost use Rattle.block.specs.View.{tip_of};
    ghost use Rattle.watching.specs.Changes as values;
    ghost use Rattle.watching.specs.Changes.{coded_difference};

    ghost Value = { values.Difference };

    ghost coded = { coded_difference };

    ghost view = { λ s. record { tip = tip_of s.tip; changes = s.changes.items } };
}

/// What was kept before the first `back` of these blocks, the newest first. Err where memory runs out: what is kept is
/// gone with the call.
pub fn before_blocks(
    tables: Tables,
    differences: &LinkedList<Difference>,
    back: usize,
) -> Result<Tables, AllocError>
    requires { back ≤ length differences.now }
    ensures { IfOk result (λ before. tables_of before ≡ before_blocks (take back differences.now) (tables_of tables)) }
{
    let mut before = tables;
    let mut older = differences.iter();
    for _ in 0..back {
        if let Some(difference) = older.next() {
            before = all_put_back(before, &difference.changes)?;
        }
    }
    Ok(before)
}

/// Whether a chain that ends at the tip ends at the point.
fn is_at(tip: &Tip, point: &Point) -> bool
    ensures { IsTrue result ↔ (point_at (tip_of tip.now) ≡ point_of point.now) }
{
    let hash = match tip.hash {
        Some(hash) => hash,
        None => Point::genesis().hash,
    };
    tip.number == point.number && hash == point.hash
}

/// How many blocks have to be rolled back of a chain that ends at the tip to come to the point, and where it ends then;
/// None where none of these differences leads there, the newest first.
pub fn find(tip: &Tip, differences: &LinkedList<Difference>, point: &Point) -> Option<(usize, Tip)>
    ensures within { IfSome result (λ found. found.0 ≤ length differences.now) }
    ensures tip { IfSome result (λ found. tip_of found.1 ≡ tip_back found.0 (tip_of tip.now) differences.now) }
    ensures ends { IfSome result (λ found. point_at (tip_of found.1) ≡ point_of point.now) }
    ensures none { IfNone result ((back : ℕ) → back ≤ length differences.now →
        point_at (tip_back back (tip_of tip.now) differences.now) ≡ point_of point.now → ⊥) }
{
    if is_at(tip, point) {
        return Some((0, *tip));
    }
    let mut older = differences.iter();
    for back in 0..differences.len() {
        if let Some(difference) = older.next() {
            if is_at(&difference.tip, point) {
                return Some((back + 1, difference.tip));
            }
        }
    }
    None
}

/// Puts the newest difference before the others. At most k of all are left, the newest. Where memory runs out nothing
/// changes.
pub fn push_newest(
    differences: &mut LinkedList<Difference>,
    difference: Difference,
    k: u64,
) -> Result<(), AllocError>
    requires { length differences.old ≤ k }
    ensures ok { OnOk result (differences.new ≡ take k (difference ∷ differences.old)) }
    ensures few { length differences.new ≤ k }
    ensures err { OnErr result (differences.new ≡ differences.old) }
{
    differences.push_front(difference)?;
    if differences.len() as u64 > k {
        let _ = differences.pop_back();
    }
    Ok(())
}

/// Drops the first `count` of these differences, the newest first.
pub fn drop_newest(differences: &mut LinkedList<Difference>, count: usize)
    ensures { differences.new ≡ drop count differences.old }
{
    for _ in 0..count {
        let _ = differences.pop_front();
    }
}
