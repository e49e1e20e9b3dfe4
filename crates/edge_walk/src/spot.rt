ghost use Rattle.std.specs.Prelude.{◌≡◌, IfOk, IfSome};
ghost use Rattle.edge_store.specs.State.{IsLive};
ghost use Rattle.edge_dir.specs.Bounds.{IsPlaceWithin};
ghost use Rattle.edge_model.specs.Walk.{at_spot};
ghost use Rattle.edge_volume.specs.Nodes.{OnTree};
ghost use Rattle.edge_volume.specs.Parts.{Looks, IsOfNoDamage};
ghost use Rattle.edge_volume.specs.Stopped.{fault_in};
ghost use Rattle.edge_walk.specs.Reached.{IsReached, IsHolder};
ghost use Rattle.edge_walk.specs.Spots.{HasHolder, IsFoundAt, IsPlaceFor, IsPlaceReached, spot_in, found_in};

use edge_dir::{Found, Place, find, look_up};
use edge_store::{Store, StoreFault};

/// The number of the root.
pub(crate) const ROOT: u32 = 2;

/// Where a path leads: to the root, or to a name in a directory, which may have no such name.
#[derive(Clone, Copy, Debug)]
pub enum Spot<'a> {
    Top,
    Within { d: u32, name: &'a [u8] },
}

/// What is at a spot: the slot of its directory that has the name, and the number that it names.
/// None where the directory has no such name. The root is in no slot, and is told with slot 0.
pub fn at_spot<S: Store>(s: &mut S, spot: Spot<'_>) -> Result<Option<Found>, StoreFault>
    requires live { IsLive (S.state s.old) }
    requires holder { HasHolder (S.state s.old) spot }
    ensures looks { Looks S.Store (fault_in result) s.old s.new }
    ensures undamaged { OnTree (S.state s.old) (λ t. IsOfNoDamage (fault_in result)) }
    ensures found { IfOk result (λ found. OnTree (S.state s.old)
        (λ t. found_in found ≡ at_spot t (spot_in spot.entry))) }
    ensures within { IfOk result (IsFoundAt (S.state s.old).origin.request spot.entry) }
    ensures reached { IfOk result (λ found.
        IfSome found (λ found. IsReached (S.state s.new) found.number)) }
{
    match spot {
        Spot::Top => {
            let _within_limits = s.geometry().request();
            Ok(Some(Found {
                slot: 0,
                number: ROOT,
            }))
        }
        Spot::Within { d, name } => {
            let found = find(s, d, name)?;
            Ok(found)
        }
    }
}

/// Where a name stands in directory `d`, or where it would go: the directory is read once.
pub fn place_at<S: Store>(s: &mut S, d: u32, name: &[u8]) -> Result<Place, StoreFault>
    requires live { IsLive (S.state s.old) }
    requires holder { IsHolder (S.state s.old) d }
    ensures looks { Looks S.Store (fault_in result) s.old s.new }
    ensures undamaged { OnTree (S.state s.old) (λ t. IsOfNoDamage (fault_in result)) }
    ensures place { IfOk result (λ place.
        OnTree (S.state s.old) (λ t. IsPlaceFor t d name.now place)) }
    ensures within { IfOk result (IsPlaceWithin (S.state s.old).origin.request) }
    ensures reached { IfOk result (IsPlaceReached (S.state s.new)) }
{
    let place = look_up(s, d, name)?;
    Ok(place)
}
