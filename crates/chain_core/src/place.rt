//! Places on the chain.

ghost use Rattle.std.specs.Prelude.{◌≡◌, ◌↔◌, ◌-◌, IsTrue, map, option_map, drop};
ghost use Rattle.std.specs.Slice.Iter.{iter_rest};
ghost use Rattle.model.specs.Follower.{IsOn, IsFirstOn};
ghost use Rattle.ident.specs.PointView.{point_of};
ghost use Rattle.chain.specs.Chained.{chain_of};

use block::CheckedBlock;
use chain::Chain;
use ident::Point;
use std::slice::Iter;
use witness_pool::SigScheme;

/// The blocks from this number on, of which the first one of the chain has number 1.
pub fn blocks_from<S: SigScheme>(chain: &[CheckedBlock<S>], from: u64) -> Iter<'_, CheckedBlock<S>>
    ensures { iter_rest result ≡ drop (from - 1) chain.now }
{
    let skipped = from.saturating_sub(1).min(chain.len() as u64) as usize;
    chain[skipped..].iter()
}

/// Whether the point is on the chain.
fn is_on<S: SigScheme>(chain: &Chain<S>, point: &Point) -> bool
    ensures { IsTrue result ↔ IsOn (chain_of chain.now) (point_of point.now) }
{
    chain.point_at(point.number) == *point
}

/// The first of the points that is on the chain. A look-up by number for each.
pub fn first_on<S: SigScheme>(chain: &Chain<S>, points: &[Point]) -> Option<Point>
    ensures { IsFirstOn (chain_of chain.now) (map point_of points.now) (option_map point_of result) }
{
    for point in points {
        if is_on(chain, point) {
            return Some(*point);
        }
    }
    None
}
