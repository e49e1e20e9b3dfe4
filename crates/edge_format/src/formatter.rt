ghost use Rattle.std.specs.Prelude.{◌≡◌, ◌≢◌, ◌⊎◌, ◌<◌, ◌≤◌, ℕ, List, length, Ok, IsTrue, OnOk, OnErr};
ghost use Rattle.edge_base.specs.outside.Faults.{HasCause};
ghost use Rattle.edge_base.specs.layout.Spelling.{master_in};
ghost use Rattle.edge_disk.specs.State.{disk_of, shown_by, EachCut, EachPermitted, IsTold, IsSettled, Keeps};
ghost use Rattle.edge_image.specs.Formatted.{master_of, zero_block, OpensFresh};
ghost use Rattle.edge_format.specs.Nodes.{IsBesideNodes, IsBeside, HasNodes};
ghost use Rattle.edge_format.specs.Cut.{IsOldOrFresh};

use crate::imaps::write_imaps;
use crate::nodes::{fill_master, fill_metaroot, fill_root};
use crate::put::put;
use edge_base::Geometry;
use edge_disk::{DeviceFault, Disk};
use thiserror::Error;

/// Why an image was not formatted.
#[derive(Clone, Copy, Debug, PartialEq, Eq, Error)]
pub enum FormatFault {
    /// A device call failed.
    #[error("Device")]
    Device,
}

impl From<DeviceFault> for FormatFault {
    fn from(_fault: DeviceFault) -> FormatFault {
        FormatFault::Device
    }
}

/// Makes the first blocks of a disk a volume of this geometry, with an empty root directory alone.
///
/// `time` is told by the master, in seconds since 1970. `buffer` has room for a block, and its
/// bytes mean nothing afterwards. After a fault a cut of the power leaves the old image, one
/// without a master, or the fresh one. The first fault ends the call: the disk is not called again.
pub fn format<D: Disk>(
    disk: &mut D,
    g: Geometry,
    time: u32,
    buffer: &mut [u8],
) -> Result<(), FormatFault>
    requires size { (D.origin disk.old).block_size ≡ g.block_size }
    requires fits { g.blocks ≤ (D.origin disk.old).blocks }
    requires whole { length buffer.old ≡ g.block_size }
    ensures origin { D.origin disk.new ≡ D.origin disk.old }
    ensures cause { HasCause (D.faults disk.old) (D.faults disk.new) result }

    // A cut after Ok leaves the fresh image.
    ensures opens { IsSettled (disk_of D.Disk disk.old)
        → OnOk result (EachPermitted (disk_of D.Disk disk.new) (OpensFresh g time)) }
    ensures shown { IsTrue (D.origin disk.old).shows
        → OnOk result (OpensFresh g time (shown_by (disk_of D.Disk disk.new))) }
    ensures sure { IsSettled (disk_of D.Disk disk.old)
        → OnOk result ((k : ℕ) → D.is_sure disk.new k) }

    // A cut after a fault may also leave the old image, or one without a master.
    ensures cut { IsSettled (disk_of D.Disk disk.old)
        → OnErr result (EachCut (disk_of D.Disk disk.new)
        (IsOldOrFresh (shown_by (disk_of D.Disk disk.old)) g time)) }

    // Other blocks are not touched.
    ensures kept { Keeps (IsBeside g) (disk_of D.Disk disk.old) (disk_of D.Disk disk.new) }
{
    let _within_limits = g.request();
    clear_master(disk, &g, buffer)?;
    write_nodes(disk, &g, buffer)?;
    write_master(disk, &g, time, buffer)?;
    Ok(())
}

// Writes zeros over the master, so that the image is no volume while its nodes are written.
fn clear_master<D: Disk>(disk: &mut D, g: &Geometry, buffer: &mut [u8]) -> Result<(), DeviceFault>
    requires size { (D.origin disk.old).block_size ≡ g.now.block_size }
    requires fits { g.now.blocks ≤ (D.origin disk.old).blocks }
    requires whole { length buffer.old ≡ g.now.block_size }
    ensures origin { D.origin disk.new ≡ D.origin disk.old }
    ensures cause { HasCause (D.faults disk.old) (D.faults disk.new) result }
    ensures whole { length buffer.new ≡ length buffer.old }
    ensures shown { IsTrue (D.origin disk.old).shows
        → OnOk result (D.shown disk.new 0 ≡ zero_block g.now) }
    ensures sure { IsTold (disk_of D.Disk disk.old)
        → OnOk result ((k : ℕ) → D.is_sure disk.new k) }
    ensures adds { (c : List ℕ) → D.may_hold disk.new 0 c
        → D.may_hold disk.old 0 c ⊎ (c ≡ zero_block g.now) }
    ensures kept { Keeps (λ k. k ≢ 0) (disk_of D.Disk disk.old) (disk_of D.Disk disk.new) }
{
    let _within_limits = g.request();
    buffer.fill(0);
    let zeros = &*buffer;
    put(disk, 0, zeros)?;
    Ok(())
}

// Writes the imap nodes, the root's inode, the first metaroot and an empty second one, and makes
// them sure.
fn write_nodes<D: Disk>(disk: &mut D, g: &Geometry, buffer: &mut [u8]) -> Result<(), DeviceFault>
    requires size { (D.origin disk.old).block_size ≡ g.now.block_size }
    requires fits { g.now.blocks ≤ (D.origin disk.old).blocks }
    requires whole { length buffer.old ≡ g.now.block_size }
    ensures origin { D.origin disk.new ≡ D.origin disk.old }
    ensures cause { HasCause (D.faults disk.old) (D.faults disk.new) result }
    ensures whole { length buffer.new ≡ length buffer.old }
    ensures shown { IsTrue (D.origin disk.old).shows
        → OnOk result (HasNodes g.now (D.shown disk.new)) }
    ensures sure { IsTold (disk_of D.Disk disk.old)
        → OnOk result ((k : ℕ) → D.is_sure disk.new k) }
    ensures kept { Keeps (IsBesideNodes g.now) (disk_of D.Disk disk.old) (disk_of D.Disk disk.new) }
{
    let _within_limits = g.request();
    write_imaps(disk, g, buffer)?;
    fill_root(g, buffer);
    disk.write(g.inode_place(2, false), buffer)?;
    fill_metaroot(g, buffer);
    disk.write(1, buffer)?;
    buffer.fill(0);
    put(disk, 2, buffer)?;
    Ok(())
}

// Writes the master and makes it sure.
fn write_master<D: Disk>(
    disk: &mut D,
    g: &Geometry,
    time: u32,
    buffer: &mut [u8],
) -> Result<(), DeviceFault>
    requires size { (D.origin disk.old).block_size ≡ g.now.block_size }
    requires fits { g.now.blocks ≤ (D.origin disk.old).blocks }
    requires whole { length buffer.old ≡ g.now.block_size }
    ensures origin { D.origin disk.new ≡ D.origin disk.old }
    ensures cause { HasCause (D.faults disk.old) (D.faults disk.new) result }
    ensures shown { IsTrue (D.origin disk.old).shows
        → OnOk result (master_in (D.shown disk.new 0) ≡ Ok (master_of g.now time)) }
    ensures sure { IsTold (disk_of D.Disk disk.old)
        → OnOk result ((k : ℕ) → D.is_sure disk.new k) }
    ensures adds { (c : List ℕ) → D.may_hold disk.new 0 c
        → D.may_hold disk.old 0 c ⊎ (master_in c ≡ Ok (master_of g.now time)) }
    ensures kept { Keeps (λ k. k ≢ 0) (disk_of D.Disk disk.old) (disk_of D.Disk disk.new) }
{
    let _within_limits = g.request();
    fill_master(g, time, buffer);
    put(disk, 0, buffer)?;
    Ok(())
}
