ghost use Rattle.std.specs.Prelude.{◌≡◌, ◌≢◌, ◌<◌, ◌+◌, ℕ, List, true, IfOk, IfSome, IsOk, OnOk, OnErr, IsTrue};
ghost use Rattle.edge_base.specs.layout.Bitmap.{used_under};
ghost use Rattle.edge_base.specs.layout.Places.{is_inline_of};
ghost use Rattle.edge_cache.specs.Calls.{content_in};
ghost use Rattle.edge_imap.specs.Bitmaps.{IsRootBits, IsFit, IsTied, bits_of, first_bit, committed_bit, working_bit, is_free_bit, state_of, working_use, IsNamed, IsNamedFor};
ghost use Rattle.edge_imap.specs.Reading.{OnlyReads, TellsWhy, TellsLoad, NeverDamaged, Sets};
ghost use Rattle.edge_imap.specs.Inodes.{is_free_number, free_inodes_of};
ghost use Rattle.edge_imap.specs.Search.{Finds, FindsLeast, IsWithin};

use crate::change::Change;
use crate::fault::{BlockState, ImapFault, LoadFault};
use crate::inodes::first_number;
use crate::load::load_roots;
use crate::room::Room;
use crate::search::next_bit;
use crate::state::{set_bit, state_of_bit};
use edge_alloc::Counts;
use edge_base::Geometry;
use edge_cache::Cache;
use edge_disk::Disk;
use std::alloc::Global;
use std::marker::Model;

/// The bitmap of used blocks: the list of the last point, and the working one.
///
/// A bit stands for a block: bit i for block i of those from the inode table on. Where the bitmap
/// is in imap nodes, its bits lie in a cache: the one that `load` was given. Each later call takes
/// that cache, to whose `write` and `fresh` no imap place was given since then but by this.
///
/// `geometry`, `committed` and `working` say what the lists are: the last two are the bytes of the
/// bitmap in the last metaroot and of the one in the next. Where they name imap nodes, a node that
/// changes gets its other place, and the two differ there until the next point.
#[derive(Drop)]
pub struct Imap {
    geometry: Geometry,
    committed: Vec<u8>,
    working: Vec<u8>,
    counts: Counts,
    // Room for the two blocks of a pair.
    one: Vec<u8>,
    two: Vec<u8>,
}

/// A bitmap that was loaded, and how many numbers of inodes it leaves free.
#[derive(Drop)]
pub struct Loaded {
    pub imap: Imap,
    pub numbers: u32,
}

impl Model for Imap {
    ghost use Rattle.std.specs.Prelude.{◌≡◌, length};
    ghost use Rattle.edge_imap.specs.Bitmaps.{Bitmaps, IsBitmaps, bitmaps};

    ghost Value = { Bitmaps };

    ghost view = { λ s. bitmaps s.geometry s.committed.items s.working.items s.counts };

    ghost invariant = { λ s.
        IsBitmaps (bitmaps s.geometry s.committed.items s.working.items s.counts)
        × (length s.one.items ≡ s.geometry.block_size)
        × (length s.two.items ≡ s.geometry.block_size) };
}

impl Imap {
    /// The bitmap below the bits of the live metaroot. The two lists are the same. It takes all
    /// memory that this bitmap ever takes, before it reads.
    pub fn load<D: Disk>(
        alloc: Global,
        g: Geometry,
        live_bits: &[u8],
        cache: &mut Cache<D>,
    ) -> Result<Imap, LoadFault>
        requires bits { IsRootBits g live_bits.now }
        requires fits { IsFit g (D.origin cache.old.disk) }
        ensures geometry { IfOk result (λ m. m.geometry ≡ g) }
        ensures committed { IfOk result (λ m. m.committed ≡ live_bits.now) }
        ensures working { IfOk result (λ m. m.working ≡ live_bits.now) }
        ensures tied { IsTrue (D.origin cache.old.disk).shows
            → IfOk result (λ m. IsTied m (content_in D.Disk cache.new)) }
        ensures cause { TellsLoad D.Disk g live_bits.now cache.old cache.new result }
        ensures reads { OnlyReads D.Disk cache.old cache.new }
    {
        let room = Room::new(alloc, g.request().block_size)?;
        Ok(Imap::load_in(room, g, live_bits, cache)?.imap)
    }

    /// The same in memory that was taken before, with how many numbers of inodes the lists leave
    /// free. Each live node is read once.
    pub fn load_in<D: Disk>(
        room: Room,
        g: Geometry,
        live_bits: &[u8],
        cache: &mut Cache<D>,
    ) -> Result<Loaded, LoadFault>
        requires room { room ≡ g.block_size }
        requires bits { IsRootBits g live_bits.now }
        requires fits { IsFit g (D.origin cache.old.disk) }
        ensures geometry { IfOk result (λ l. l.imap.geometry ≡ g) }
        ensures committed { IfOk result (λ l. l.imap.committed ≡ live_bits.now) }
        ensures working { IfOk result (λ l. l.imap.working ≡ live_bits.now) }
        ensures tied { IsTrue (D.origin cache.old.disk).shows
            → IfOk result (λ l. IsTied l.imap (content_in D.Disk cache.new)) }
        ensures numbers { IsTrue (D.origin cache.old.disk).shows → IfOk result (λ l. l.numbers
            ≡ free_inodes_of g (used_under g live_bits.now (content_in D.Disk cache.old))) }
        ensures memory { result ≢ Err LoadFault.Memory }
        ensures cause { TellsLoad D.Disk g live_bits.now cache.old cache.new result }
        ensures reads { OnlyReads D.Disk cache.old cache.new }
    {
        let Room {
            mut committed,
            mut working,
            mut one,
            two,
        } = room;
        committed.copy_from_slice(live_bits);
        working.copy_from_slice(live_bits);
        let tally = load_roots(&g, live_bits, cache, &mut one)?;
        let counts = Counts {
            free: tally.blocks,
            almost: 0,
        };
        Ok(Loaded {
            imap: Imap {
                geometry: g,
                committed,
                working,
                counts,
                one,
                two,
            },
            numbers: tally.numbers,
        })
    }

    /// The state of a block, by its bit.
    pub fn state<D: Disk>(
        &mut self,
        cache: &mut Cache<D>,
        bit: u32,
    ) -> Result<BlockState, ImapFault>
        requires fits { IsFit self.old.geometry (D.origin cache.old.disk) }
        requires bit { bit < bits_of self.old.geometry }
        ensures state { IsTrue (D.origin cache.old.disk).shows → IfOk result (λ s. s ≡ state_of
            (committed_bit self.old (content_in D.Disk cache.old) bit)
            (working_bit self.old (content_in D.Disk cache.old) bit)) }
        ensures same { self.new ≡ self.old }
        ensures cause { TellsWhy D.Disk (IsNamedFor self.old bit) cache.old cache.new result }
        ensures sound { IsTrue (D.origin cache.old.disk).shows
            → IsTied self.old (content_in D.Disk cache.old) → NeverDamaged result }
        ensures reads { OnlyReads D.Disk cache.old cache.new }
    {
        state_of_bit(&self.geometry, &self.committed, &self.working, cache, bit)
    }

    /// Changes the working list at a bit. A node that has not got its place for the next point gets
    /// it, and carries this sequence number. The counts follow. Where the bit has the value
    /// already, nothing changes.
    pub fn set<D: Disk>(
        &mut self,
        cache: &mut Cache<D>,
        sequence: u64,
        bit: u32,
        used: bool,
    ) -> Result<(), ImapFault>
        requires fits { IsFit self.old.geometry (D.origin cache.old.disk) }
        requires bit { bit < bits_of self.old.geometry }
        ensures geometry { self.new.geometry ≡ self.old.geometry }
        ensures committed { self.new.committed ≡ self.old.committed }
        ensures sets { OnOk result (Sets D.Disk sequence bit used self.old self.new
            cache.old cache.new) }
        ensures inline { is_inline_of self.old.geometry ≡ true
            → (cache.new ≡ cache.old) × IsOk result }
        ensures idle { IsTrue (D.origin cache.old.disk).shows
            → working_bit self.old (content_in D.Disk cache.old) bit ≡ used
            → (self.new ≡ self.old) × OnlyReads D.Disk cache.old cache.new }
        ensures unset { OnErr result (self.new ≡ self.old) }
        ensures fault { OnErr result (OnlyReads D.Disk cache.old cache.new) }
        ensures origin { D.origin cache.new.disk ≡ D.origin cache.old.disk }
        ensures cause { TellsWhy D.Disk (IsNamedFor self.old bit) cache.old cache.new result }
        ensures sound { IsTrue (D.origin cache.old.disk).shows
            → IsTied self.old (content_in D.Disk cache.old) → NeverDamaged result }
        ensures tied { IsTrue (D.origin cache.old.disk).shows
            → IsTied self.old (content_in D.Disk cache.old)
            → IsTied self.new (content_in D.Disk cache.new) }
    {
        let change = Change {
            sequence,
            bit,
            used,
        };
        set_bit(
            &self.geometry,
            &self.committed,
            &mut self.working,
            &mut self.counts,
            &mut self.one,
            cache,
            change,
        )
    }

    /// The next free bit from `from` on, round those of the allocable blocks: one that neither list
    /// uses. None exactly where there is none.
    pub fn next_free<D: Disk>(
        &mut self,
        cache: &mut Cache<D>,
        from: u32,
    ) -> Result<Option<u32>, ImapFault>
        requires fits { IsFit self.old.geometry (D.origin cache.old.disk) }
        requires from { from < bits_of self.old.geometry }
        ensures found { IsTrue (D.origin cache.old.disk).shows → IfOk result
            (Finds (is_free_bit self.old (content_in D.Disk cache.old))
            (first_bit self.old.geometry)
            (bits_of self.old.geometry) from) }
        ensures bound { IfOk result (λ found.
            IfSome found (IsWithin (first_bit self.old.geometry) (bits_of self.old.geometry))) }
        ensures same { self.new ≡ self.old }
        ensures cause { TellsWhy D.Disk (IsNamed self.old) cache.old cache.new result }
        ensures sound { IsTrue (D.origin cache.old.disk).shows
            → IsTied self.old (content_in D.Disk cache.old) → NeverDamaged result }
        ensures reads { OnlyReads D.Disk cache.old cache.new }
    {
        next_bit(
            &self.geometry,
            &self.committed,
            &self.working,
            cache,
            &mut self.one,
            &mut self.two,
            from,
        )
    }

    /// The least number of an inode that the working list leaves free, of whose two places it uses
    /// neither; None exactly where there is none. What the last point uses makes no difference: it
    /// says at which place a new inode may be written.
    pub fn free_inode<D: Disk>(&mut self, cache: &mut Cache<D>) -> Result<Option<u32>, ImapFault>
        requires fits { IsFit self.old.geometry (D.origin cache.old.disk) }
        ensures found { IsTrue (D.origin cache.old.disk).shows → IfOk result (FindsLeast
            (is_free_number self.old.geometry
            (working_use self.old (content_in D.Disk cache.old)))
            2 (2 + self.old.geometry.inodes)) }
        ensures bound { IfOk result
            (λ found. IfSome found (IsWithin 2 (2 + self.old.geometry.inodes))) }
        ensures same { self.new ≡ self.old }
        ensures cause { TellsWhy D.Disk (IsNamed self.old) cache.old cache.new result }
        ensures sound { IsTrue (D.origin cache.old.disk).shows
            → IsTied self.old (content_in D.Disk cache.old) → NeverDamaged result }
        ensures reads { OnlyReads D.Disk cache.old cache.new }
    {
        first_number(&self.geometry, &self.working, cache, &mut self.one)
    }

    /// How many allocable blocks neither list uses, and how many the list of the last point alone
    /// does.
    pub fn counts(&self) -> Counts
        ensures { result ≡ self.now.counts }
    {
        self.counts
    }

    /// The bytes of the bitmap in the next metaroot.
    pub fn root_bits(&self) -> &[u8]
        ensures bits { result.now ≡ self.now.working }
        ensures roots { IsRootBits self.now.geometry result.now }
    {
        &self.working
    }

    /// Makes the working list that of the last point.
    pub fn settle(&mut self)
        ensures geometry { self.new.geometry ≡ self.old.geometry }
        ensures committed { self.new.committed ≡ self.old.working }
        ensures working { self.new.working ≡ self.old.working }
        ensures tied { (content : ℕ → List ℕ) → IsTied self.old content → IsTied self.new content }
    {
        let _within_limits = self.geometry.request();
        self.committed.copy_from_slice(&self.working);
        self.counts = Counts {
            free: self.counts.free.saturating_add(self.counts.almost),
            almost: 0,
        };
    }
}
