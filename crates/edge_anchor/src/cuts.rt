ghost use Rattle.std.specs.Prelude.{◌≡◌, ◌⊎◌, ◌≤◌, ◌^◌, ℕ, None, Some};
ghost use Rattle.edge_cache.specs.Cached.{Cached};
ghost use Rattle.edge_disk.specs.Image.{Image};
ghost use Rattle.edge_disk.specs.State.{EachCut, disk_of, shown_by};
ghost use Rattle.edge_store.specs.View.{View};
ghost use Rattle.edge_image.specs.Image.{reason_of};
ghost use Rattle.edge_image.specs.Ready.{IsMountable};
ghost use Rattle.edge_anchor.specs.Anchor.{Anchor, IsOn, live_by, view_at};
ghost use Rattle.edge_anchor.specs.Medium.{IsCommitted, IsTurning, medium_of, shown_alone};
ghost use Rattle.edge_anchor.specs.Opens.{OpensAs};

use edge_disk::Disk;

/// Between two points each image that a cut may leave opens by the last one, with its view.
pub fn cuts_between_points_leave_the_last<D: Disk>()
    ensures { (c : Cached D) (a : Anchor) → IsOn (D.origin c.disk) a
        → IsCommitted a (medium_of D.Disk c)
        → EachCut (disk_of D.Disk c.disk) (OpensAs a (view_at a (D.shown c.disk))) }
{}

/// Inside a point, from its first flush on, each opens by the last one or by this one, with the
/// view of that point.
pub fn cuts_inside_a_point_leave_one_of_two<D: Disk>()
    ensures { (c : Cached D) (a b : Anchor) → IsOn (D.origin c.disk) a
        → IsTurning a b (medium_of D.Disk c)
        → EachCut (disk_of D.Disk c.disk) (λ image. OpensAs a (view_at a (D.shown c.disk)) image
        ⊎ OpensAs b (view_at b (D.shown c.disk)) image) }
{}

/// Between two points the image that reads give opens by the last one. This asks for no candidates.
pub fn the_shown_image_is_of_the_last_point<D: Disk>()
    ensures { (c : Cached D) (a : Anchor) → IsOn (D.origin c.disk) a
        → IsCommitted a (shown_alone (medium_of D.Disk c))
        → OpensAs a (view_at a (D.shown c.disk)) (shown_by (disk_of D.Disk c.disk)) }
{}

/// An image that opens by an anchor is mounted by it, where its sequence number is not too great
/// and it has room. No other reason holds of it than these two, 5 and 8.
pub fn an_image_that_opens_is_mounted()
    ensures mounted { (a : Anchor) (v : View) (image : Image) → OpensAs a v image
        → a.root.sequence ≤ 2 ^ 63 → 3 ≤ a.root.free_blocks
        → IsMountable image a.master (live_by a) }
    ensures reasons { (a : Anchor) (v : View) (image : Image) → OpensAs a v image
        → (reason_of image ≡ None) ⊎ ((reason_of image ≡ Some 5) ⊎ (reason_of image ≡ Some 8)) }
{}
