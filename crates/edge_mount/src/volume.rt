//! A whole mount.
ghost use Rattle.std.specs.Prelude.{◌≡◌, ◌≤◌, length, IfOk, IfErr, IsTrue};
ghost use Rattle.edge_cache.specs.Cached.{IsClean};
ghost use Rattle.edge_disk.specs.State.{disk_of, IsUntouched, shown_by};
ghost use Rattle.edge_image.specs.Image.{reason_of};
ghost use Rattle.edge_imap.specs.Reading.{OnlyReads};
ghost use Rattle.edge_mount.specs.Mounting.{TellsMount, image_of};
ghost use Rattle.edge_mount.specs.Mounted.{Finds, Mounts, Refuses};
ghost use Rattle.edge_mount.specs.Rooms.{IsRoomFor};

use crate::bitmap::load_bitmap;
use crate::fault::MountFault;
use crate::live::read_live;
use crate::master::read_master;
use crate::rooms::{Rooms, take_rooms};
use edge_base::{Master, Metaroot};
use edge_cache::Cache;
use edge_disk::Disk;
use edge_imap::{Imap, Room};
use edge_nodes::bits_of;
use std::alloc::Global;

/// What a mount gives: a cache over the disk, the bitmap, the master, the live metaroot and the
/// block that it lies in, and room for a block.
#[derive(Drop)]
pub struct Mounted<D: Disk> {
    pub cache: Cache<D>,
    pub imap: Imap,
    pub master: Master,
    pub place: u32,
    pub root: Metaroot,
    pub block: Vec<u8>,
}

// What is read of a volume.
#[derive(Drop)]
struct Volume {
    imap: Imap,
    master: Master,
    place: u32,
    root: Metaroot,
}

// Reads the volume of a disk of so many blocks of this size, or answers the first reason. Both
// slices are room for a block.
fn read_volume<D: Disk>(
    cache: &mut Cache<D>,
    blocks: u32,
    block_size: u32,
    room: Room,
    one: &mut [u8],
    two: &mut [u8],
) -> Result<Volume, MountFault>
    requires blocks { blocks ≡ (D.origin cache.old.disk).blocks }
    requires size { block_size ≡ (D.origin cache.old.disk).block_size }
    requires three { 3 ≤ blocks }
    requires room { room ≡ (D.origin cache.old.disk).block_size }
    requires one { length one.old ≡ (D.origin cache.old.disk).block_size }
    requires two { length two.old ≡ (D.origin cache.old.disk).block_size }
    ensures finds { IfOk result (Finds D.Disk cache.old cache.new) }
    ensures reads { OnlyReads D.Disk cache.old cache.new }
    ensures cause { TellsMount D.Disk (reason_of (image_of D.Disk cache.old))
        cache.old cache.new result }
{
    let master = read_master(cache, blocks, block_size, one)?;
    let g = master.geometry;
    let live = read_live(cache, &g, one, two)?;
    let imap = load_bitmap(cache, room, g, &live.root, bits_of(one, 32))?;
    Ok(Volume {
        imap,
        master,
        place: live.place,
        root: live.root,
    })
}

// The same, with the cache.
fn mount_in<D: Disk>(
    mut cache: Cache<D>,
    blocks: u32,
    block_size: u32,
    rooms: Rooms,
) -> Result<Mounted<D>, (D, MountFault)>
    requires blocks { blocks ≡ (D.origin cache.disk).blocks }
    requires size { block_size ≡ (D.origin cache.disk).block_size }
    requires three { 3 ≤ blocks }
    requires clean { IsClean cache.held }
    requires rooms { IsRoomFor (D.origin cache.disk).block_size rooms }
    ensures mounts { IfOk result (Mounts D.Disk cache.disk) }
    ensures refuses { IfErr result (λ e. Refuses D.Disk cache.disk e.0 e.1) }
{
    let Rooms {
        mut one,
        mut two,
        bitmap,
    } = rooms;
    match read_volume(&mut cache, blocks, block_size, bitmap, &mut one, &mut two) {
        Ok(volume) => Ok(Mounted {
            cache,
            imap: volume.imap,
            master: volume.master,
            place: volume.place,
            root: volume.root,
            block: one,
        }),
        Err(fault) => Err((cache.end(), fault)),
    }
}

/// Mounts the volume of a disk. It only reads, and takes all its memory before: 3 blocks and the
/// live imap nodes. Where there is no volume it answers the first reason, and the disk comes back.
pub fn mount<D: Disk>(alloc: Global, disk: D) -> Result<Mounted<D>, (D, MountFault)>
    ensures mounts { IfOk result (Mounts D.Disk disk) }
    ensures refuses { IfErr result (λ e. Refuses D.Disk disk e.0 e.1) }
{
    let blocks = disk.blocks();
    if blocks < 3 {
        return Err((disk, MountFault::NotVolume(1)));
    }
    let block_size = disk.block_size();
    let Ok(rooms) = take_rooms(alloc, block_size) else {
        return Err((disk, MountFault::Memory));
    };
    match Cache::new(alloc, disk) {
        Ok(cache) => mount_in(cache, blocks, block_size, rooms),
        Err((disk, _)) => Err((disk, MountFault::Memory)),
    }
}
