ghost use Rattle.std.specs.Prelude.{◌≡◌};
ghost use Rattle.edge_base.specs.commands.Descriptors.{none_open};
ghost use Rattle.edge_base.specs.commands.Events.{default_mask};
ghost use Rattle.edge_store.specs.State.{Told, IsLive};
ghost use Rattle.edge_model.specs.State.{first_state};
ghost use Rattle.edge_model.specs.Tree.{Tree};
ghost use Rattle.edge_steps.specs.Room.{LeavesRoom};
ghost use Rattle.edge_volume.specs.Volume.{VolumeStands, IsOfTree};

use edge_handles::Handles;
use edge_mask::Events;
use edge_store::Store;

/// A volume: a store, the events after which points are taken, and the open descriptors.
#[derive(Drop)]
pub struct Volume<S: Store> {
    pub(crate) store: S,
    pub(crate) mask: Events,
    pub(crate) handles: Handles,
}

impl<S: Store> Volume<S> {
    ghost use Rattle.edge_mask.specs.Mask.{mask_of};
    ghost use Rattle.edge_calls.specs.State.{volume_of};

    /// A volume over a store that has not changed since its last point, with the mask at mounting
    /// and nothing open. It stands for the tree of that point, where the store does.
    pub fn new(store: S) -> Volume<S>
        requires live { IsLive (S.state store) }
        requires unchanged { (S.state store).working ≡ (S.state store).committed }
        ensures store { result.store ≡ store }
        ensures mask { mask_of result.mask ≡ default_mask }
        ensures none_open { result.handles ≡ none_open }
        ensures stands { (t : Tree) → Told (S.state store)
            → LeavesRoom (S.state store).origin.request t
            → IsOfTree (S.state store).origin.request (S.state store).committed t
            → VolumeStands (volume_of S.Store result) (first_state t) }
    {
        Volume {
            store,
            mask: Events::DEFAULT,
            handles: Handles::new(),
        }
    }

    /// The store.
    pub fn end(self) -> S
        ensures { result ≡ self.store }
    {
        self.store
    }
}
