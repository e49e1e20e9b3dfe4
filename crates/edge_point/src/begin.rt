//! The parts of a volume that was just mounted.
ghost use Rattle.std.specs.Prelude.{◌≡◌};
ghost use Rattle.edge_base.specs.layout.Places.{IsGeometry};
ghost use Rattle.edge_point.specs.Mounted.{parts_at};

use crate::parts::Parts;
use edge_disk::Disk;
use edge_mount::Mounted;

/// The parts as they begin: no point was taken, and nothing has changed.
pub(crate) fn begin<D: Disk>(mounted: Mounted<D>) -> Parts<D>
    ensures parts { result ≡ parts_at mounted }
    ensures geometry { IsGeometry mounted.master.geometry }
{
    let Mounted {
        cache,
        imap,
        master,
        place,
        root,
        block,
    } = mounted;
    let _within_limits = master.geometry.request();
    Parts {
        cache,
        imap,
        master,
        place,
        root,
        points: 0,
        numbers: root.free_inodes,
        next: root.next,
        live: true,
        torn: false,
        damage: None,
        block,
    }
}
