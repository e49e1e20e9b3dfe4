//! What an image says: its live metaroot, its used blocks, the reasons why it is not mounted,
//! whether it is ready, its view, and the tree that it opens to. The definitions stand in `specs/`;
//! the functions here are laws over them, without effects.
#![tactic(auto)]

ghost use Rattle.std.specs.Prelude.{◌≡◌, ◌↔◌, ℕ, ◌+◌, Bool, None, Some, Ok};
ghost use Rattle.edge_base.specs.declared.geometry.Request.{Request};
ghost use Rattle.edge_base.specs.declared.node.Head.{Head};
ghost use Rattle.edge_base.specs.declared.node.Master.{Master};
ghost use Rattle.edge_base.specs.tree.Nodes.{Node};
ghost use Rattle.edge_base.specs.layout.Places.{IsGeometry, allocable_of};
ghost use Rattle.edge_base.specs.tree.Positions.{count_of};
ghost use Rattle.edge_base.specs.layout.Spelling.{master_in};
ghost use Rattle.edge_disk.specs.Image.{Image};
ghost use Rattle.edge_store.specs.View.{View, is_used, count_allocable};
ghost use Rattle.edge_store.specs.Counted.{Occupy};
ghost use Rattle.edge_store.specs.Placed.{HasNode};
ghost use Rattle.edge_model.specs.Tree.{Tree, only_root, tree_positions};
ghost use Rattle.edge_model.specs.Rules.{IsTree};
ghost use Rattle.edge_image.specs.Image.{Live, live_of, used_in, used_place, place_of, reason_of, head_of, root_number};
ghost use Rattle.edge_image.specs.Ready.{IsReady, IsLive, IsMountable};
ghost use Rattle.edge_image.specs.View.{view_of};
ghost use Rattle.edge_image.specs.Opens.{OpensTo, StandsFor, IsAlike, head_of_node};
ghost use Rattle.edge_image.specs.Room.{UsesAllocable};
ghost use Rattle.edge_image.specs.Fresh.{fresh_image};

mod formatted;

pub use formatted::formatted_opens;

/// The live metaroot is the valid one that no other beats, and there is no other such one.
pub fn live_is_the_greater()
    ensures { (g : Request) (image : Image) (live : Live) → (live_of g image ≡ Some live)
        ↔ IsLive g image live }
{}

/// An image is mounted where no reason holds: with one master and one live metaroot, of which this
/// is so.
pub fn mounts_without_a_reason()
    ensures { (image : Image) → (reason_of image ≡ None)
        ↔ ((master : Master) × (live : Live) × IsMountable image master live) }
{}

/// A number's inode has one place where exactly one of its two places is used.
pub fn place_is_the_used_one()
    ensures { (g : Request) (used : ℕ → Bool) (number place : ℕ)
        → (used_place g used number ≡ Some place) ↔ (place_of g used number ≡ Ok place) }
{}

/// An image is ready with one head alone.
pub fn ready_with_one_head()
    ensures { (image : Image) (one two : Head) → IsReady image one → IsReady image two → one ≡ two }
{}

/// Of an image without a reason, ready is to tell the head of the root directory.
pub fn ready_tells_the_head()
    ensures { (image : Image) (master : Master) (live : Live) (head : Head) → reason_of image ≡ None
        → master_in (image.block 0) ≡ Ok master → live_of master.geometry image ≡ Some live
        → IsReady image head
        ↔ (head_of master.geometry image (used_in master.geometry image live) root_number
        ≡ Ok head) }
{}

/// An image that opens to a tree is ready, with the head of the tree's root.
pub fn sound_is_ready()
    ensures { (image : Image) (t : Tree) (node : Node) → (opens : OpensTo image t) → t 2 ≡ Some node
        → IsReady image (head_of_node opens.master.geometry t 2 node) }
{}

/// An image opens to one tree alone.
pub fn image_determines_tree()
    ensures { (image : Image) (t u : Tree) → OpensTo image t → OpensTo image u → t ≡ u }
{}

/// A view stands for one tree alone.
pub fn view_determines_tree()
    ensures { (g : Request) (v : View) (t u : Tree) → IsGeometry g → IsTree g t → IsTree g u
        → StandsFor g v t → StandsFor g v u → t ≡ u }
{}

/// An image that has the same blocks opens to the same tree.
pub fn alike_images_open_alike()
    ensures { (image other : Image) (t : Tree) → IsAlike image other → OpensTo image t
        → OpensTo other t }
{}

/// A fresh image opens to the tree that has an empty root directory alone.
pub fn fresh_image_opens()
    ensures { OpensTo fresh_image only_root }
{}

/// A view that stands for a tree has each node of it, taken by itself.
pub fn a_view_has_each_node()
    ensures { (g : Request) (v : View) (t : Tree) (n : ℕ) (node : Node) → IsTree g t
        → StandsFor g v t → t n ≡ Some node → HasNode g v n node }
{}

/// A view that stands for a tree uses as many blocks as the tree has positions: each position
/// occupies one. Of an image that opens to a tree, the free blocks that its live metaroot counts
/// and the positions are together all allocable blocks.
pub fn room_counts()
    ensures allocable { (g : Request) (image : Image) (live : Live)
        → UsesAllocable g (view_of g image live) }
    ensures occupied { (g : Request) (v : View) (t : Tree) → UsesAllocable g v → StandsFor g v t
        → Occupy g v (tree_positions g t) (is_used v) }
    ensures used { (g : Request) (v : View) (t : Tree) → UsesAllocable g v → StandsFor g v t
        → count_allocable g (is_used v) ≡ count_of (tree_positions g t) }
    ensures free { (image : Image) (t : Tree) → (opens : OpensTo image t)
        → opens.live.root.free_blocks + count_of (tree_positions opens.master.geometry t)
        ≡ allocable_of opens.master.geometry }
{}
