ghost use Rattle.std.specs.Prelude.{◌≡◌, IfOk, OnOk};
ghost use Rattle.edge_model.specs.Walk.{walk, spot_of};
ghost use Rattle.edge_store.specs.State.{IsLive};
ghost use Rattle.edge_volume.specs.Nodes.{OnTree};
ghost use Rattle.edge_volume.specs.Parts.{Looks, IsOfNoDamage};
ghost use Rattle.edge_volume.specs.Stopped.{fault_of, IfAnswered};
ghost use Rattle.edge_walk.specs.Reached.{IsReached, IsHolder};
ghost use Rattle.edge_walk.specs.Spots.{AreShort, HasHolder, HasShortName, spotted, enters, number_below, number_at};
ghost use Rattle.edge_walk.specs.Ways.{goes_through, led_to};

use crate::head::named_head;
use crate::spot::{ROOT, Spot, at_spot};
use edge_base::{NodeType, Refusal};
use edge_dir::find;
use edge_path::{PathNames, parts};
use edge_store::Store;
use edge_volume::Stop;

/// Where a path leads, and whether the way there goes through some directory.
#[derive(Clone, Copy, Debug)]
pub struct Way<'a> {
    pub spot: Spot<'a>,
    pub through: bool,
}

/// A number that has to be a directory's, on the way to a name in it.
pub fn enter<S: Store>(s: &mut S, d: u32) -> Result<(), Stop>
    requires live { IsLive (S.state s.old) }
    requires reached { IsReached (S.state s.old) d }
    ensures looks { Looks S.Store (fault_of result) s.old s.new }
    ensures undamaged { OnTree (S.state s.old) (λ t. IsOfNoDamage (fault_of result)) }
    ensures kind { IfAnswered result (λ r. OnTree (S.state s.old) (λ t. r ≡ enters t d)) }
    ensures holder { OnOk result (IsHolder (S.state s.new) d) }
{
    let head = named_head(s, d)?;
    match head.kind {
        NodeType::Directory => Ok(()),
        NodeType::File => Err(Stop::Refused(Refusal::NotDir)),
    }
}

/// The number that a directory has under a name.
fn below<S: Store>(s: &mut S, d: u32, name: &[u8]) -> Result<u32, Stop>
    requires live { IsLive (S.state s.old) }
    requires reached { IsReached (S.state s.old) d }
    ensures looks { Looks S.Store (fault_of result) s.old s.new }
    ensures undamaged { OnTree (S.state s.old) (λ t. IsOfNoDamage (fault_of result)) }
    ensures number { IfAnswered result (λ r.
        OnTree (S.state s.old) (λ t. r ≡ number_below t d name.now)) }
    ensures reached { IfOk result (IsReached (S.state s.new)) }
{
    enter(s, d)?;
    match find(s, d, name)? {
        Some(found) => Ok(found.number),
        None => Err(Stop::Refused(Refusal::NoEntry)),
    }
}

/// Where the names of a path lead. Each directory on the way is read once, up to its name.
pub fn locate<'a, S: Store>(s: &mut S, mut names: PathNames<'a>) -> Result<Spot<'a>, Stop>
    requires live { IsLive (S.state s.old) }
    ensures looks { Looks S.Store (fault_of result) s.old s.new }
    ensures undamaged { OnTree (S.state s.old) (λ t. IsOfNoDamage (fault_of result)) }
    ensures spot { IfAnswered result (λ r.
        OnTree (S.state s.old) (λ t. spotted r ≡ walk t names.entry)) }
    ensures holder { IfOk result (HasHolder (S.state s.new)) }
    ensures short { AreShort (S.state s.old).origin.request names.entry
        → IfOk result (HasShortName (S.state s.old).origin.request) }
{
    let Some(mut name) = names.next() else {
        return Ok(Spot::Top);
    };
    let _within_limits = s.geometry().request();
    let mut d = ROOT;
    for next in names {
        d = below(s, d, name)?;
        name = next;
    }
    enter(s, d)?;
    Ok(Spot::Within { d, name })
}

/// Where the names of a path lead, and whether a number is that of a directory on the way, the one
/// among them that holds the last name. Each directory on the way is read once, up to its name.
pub fn locate_through<'a, S: Store>(
    s: &mut S,
    mut names: PathNames<'a>,
    n: u32,
) -> Result<Way<'a>, Stop>
    requires live { IsLive (S.state s.old) }
    ensures looks { Looks S.Store (fault_of result) s.old s.new }
    ensures undamaged { OnTree (S.state s.old) (λ t. IsOfNoDamage (fault_of result)) }
    ensures spot { IfAnswered result (λ r.
        OnTree (S.state s.old) (λ t. led_to r ≡ walk t names.entry)) }
    ensures holder { IfOk result (λ way. HasHolder (S.state s.new) way.spot) }
    ensures through { IfOk result (λ way.
        OnTree (S.state s.old) (λ t. way.through ≡ goes_through t names.entry n)) }
    ensures short { AreShort (S.state s.old).origin.request names.entry
        → IfOk result (λ way. HasShortName (S.state s.old).origin.request way.spot) }
{
    let Some(mut name) = names.next() else {
        return Ok(Way {
            spot: Spot::Top,
            through: false,
        });
    };
    let _within_limits = s.geometry().request();
    let mut d = ROOT;
    let mut through = false;
    for next in names {
        through = through || d == n;
        d = below(s, d, name)?;
        name = next;
    }
    enter(s, d)?;
    Ok(Way {
        spot: Spot::Within { d, name },
        through: through || d == n,
    })
}

/// Where a path leads, or why it is refused.
pub fn spot_at<'a, S: Store>(s: &mut S, path: &'a [u8]) -> Result<Spot<'a>, Stop>
    requires live { IsLive (S.state s.old) }
    ensures looks { Looks S.Store (fault_of result) s.old s.new }
    ensures undamaged { OnTree (S.state s.old) (λ t. IsOfNoDamage (fault_of result)) }
    ensures spot { IfAnswered result (λ r. OnTree (S.state s.old)
        (λ t. spotted r ≡ spot_of (S.state s.old).origin.request t path.now)) }
    ensures holder { IfOk result (HasHolder (S.state s.new)) }
    ensures short { IfOk result (HasShortName (S.state s.old).origin.request) }
{
    let name_max = s.geometry().request().name_max;
    match parts(path, name_max) {
        Ok(names) => locate(s, names),
        Err(refusal) => Err(Stop::Refused(refusal)),
    }
}

/// The number that a path leads to, or why it is refused.
pub fn reach<S: Store>(s: &mut S, path: &[u8]) -> Result<u32, Stop>
    requires live { IsLive (S.state s.old) }
    ensures looks { Looks S.Store (fault_of result) s.old s.new }
    ensures undamaged { OnTree (S.state s.old) (λ t. IsOfNoDamage (fault_of result)) }
    ensures number { IfAnswered result (λ r. OnTree (S.state s.old)
        (λ t. r ≡ number_at (S.state s.old).origin.request t path.now)) }
    ensures reached { IfOk result (IsReached (S.state s.new)) }
{
    let spot = spot_at(s, path)?;
    match at_spot(s, spot)? {
        Some(found) => Ok(found.number),
        None => Err(Stop::Refused(Refusal::NoEntry)),
    }
}
