ghost use Rattle.std.specs.Prelude.{◌≡◌, ◌≢◌, ◌<◌, ◌≤◌, ℕ, false, length, IsTrue, OnOk};
ghost use Rattle.edge_base.specs.outside.Faults.{HasCause};
ghost use Rattle.edge_base.specs.layout.Places.{imap_nodes_of, imap_place_of};
ghost use Rattle.edge_disk.specs.State.{disk_of, Keeps};
ghost use Rattle.edge_image.specs.Formatted.{HasFirstImap, HasFirstImaps};
ghost use Rattle.edge_format.specs.Nodes.{IsBesideImaps};

use crate::nodes::fill_imap;
use edge_base::Geometry;
use edge_disk::{DeviceFault, Disk};

/// Writes each imap node to its first place, in their order.
pub fn write_imaps<D: Disk>(
    disk: &mut D,
    g: &Geometry,
    buffer: &mut [u8],
) -> Result<(), DeviceFault>
    requires size { (D.origin disk.old).block_size ≡ g.now.block_size }
    requires fits { g.now.blocks ≤ (D.origin disk.old).blocks }
    requires whole { length buffer.old ≡ g.now.block_size }
    ensures origin { D.origin disk.new ≡ D.origin disk.old }
    ensures cause { HasCause (D.faults disk.old) (D.faults disk.new) result }
    ensures whole { length buffer.new ≡ length buffer.old }
    ensures shown { IsTrue (D.origin disk.old).shows
        → OnOk result (HasFirstImaps g.now (D.shown disk.new)) }
    ensures kept { Keeps (IsBesideImaps g.now) (disk_of D.Disk disk.old) (disk_of D.Disk disk.new) }
{
    for node in 0..g.imap_nodes() {
        write_imap(disk, g, node, buffer)?;
    }
    Ok(())
}

fn write_imap<D: Disk>(
    disk: &mut D,
    g: &Geometry,
    node: u32,
    buffer: &mut [u8],
) -> Result<(), DeviceFault>
    requires size { (D.origin disk.old).block_size ≡ g.now.block_size }
    requires fits { g.now.blocks ≤ (D.origin disk.old).blocks }
    requires whole { length buffer.old ≡ g.now.block_size }
    requires in_range { node < imap_nodes_of g.now }
    ensures origin { D.origin disk.new ≡ D.origin disk.old }
    ensures cause { HasCause (D.faults disk.old) (D.faults disk.new) result }
    ensures whole { length buffer.new ≡ length buffer.old }
    ensures shown { IsTrue (D.origin disk.old).shows
        → OnOk result
        (HasFirstImap g.now node (D.shown disk.new (imap_place_of g.now node false))) }
    ensures kept { Keeps (λ k. k ≢ imap_place_of g.now node false) (disk_of D.Disk disk.old)
        (disk_of D.Disk disk.new) }
{
    let _within_limits = g.request();
    fill_imap(g, node, buffer);
    disk.write(g.imap_place(node, false), buffer)?;
    Ok(())
}
