ghost use Rattle.std.specs.Prelude.{◌≡◌, ℕ, ◌+◌, ◌-◌, ◌*◌, ◌^◌, ◌<◌, ◌≤◌, false, None, Some, MatchResult, IsTrue};
ghost use Rattle.edge_base.specs.layout.Sizes.{is_block_size, fits_inline, node_bits, pairs_for, place_of};

use crate::way::Way;
use std::marker::Model;

/// A geometry as it is asked for.
#[derive(Clone, Copy, Debug, PartialEq, Eq)]
pub struct Request {
    /// Bytes of a block: 512, 1024, 2048 or 4096.
    pub block_size: u32,
    /// Blocks of the image, at most 4,194,304.
    pub blocks: u32,
    /// Inodes, 1 to 65,536.
    pub inodes: u32,
    /// Bytes of a name at most, a multiple of 4 from 12 to 252.
    pub name_max: u32,
    /// Direct entries of an inode, at least 1.
    pub direct: u32,
    /// Indirect entries of an inode. What is left of its entries is double indirect.
    pub indirect: u32,
}

/// The first limit that a request breaks, in the order of the variants.
#[derive(Clone, Copy, Debug, PartialEq, Eq)]
pub enum BadGeometry {
    BlockSize,
    Blocks,
    Inodes,
    NameMax,
    Pointers,
    /// Fewer than 3 blocks are allocable.
    Room,
}

/// A request within the limits. `docs/FORMAT.md`, "Regions", has the places that it tells.
#[derive(Clone, Copy, Debug, PartialEq, Eq)]
pub struct Geometry {
    request: Request,
}

impl Model for Geometry {
    ghost use Rattle.edge_base.specs.declared.geometry.Request.{Request};
    ghost use Rattle.edge_base.specs.layout.Places.{IsWithinLimits};

    ghost Value = { Request };

    ghost view = { λ g. g.request };

    ghost invariant = { λ g. IsWithinLimits g.request };

    ghost inverse = { λ r. record { request = r } };
}

impl Geometry {
    ghost use Rattle.edge_base.specs.layout.Spelling.{bits_of_node};
    ghost use Rattle.edge_base.specs.layout.Places.{bad_geometry, is_inline_of, imap_nodes_of, HaveRoom, imap_place_of, table_start_of, inode_place_of, first_allocable_of, allocable_of, root_bits_of, max_blocks_of, max_size_of, way_of, IsWithinNodes, IsGeometry, IsWithinLimits};

    /// The geometry of a request, or the first limit that it breaks.
    #[tactic(auto, unfolding(crate::specs::layout::Places::bad_geometry))]
    pub fn checked(r: Request) -> Result<Geometry, BadGeometry>
        ensures { MatchResult result
            (λ g. (bad_geometry r ≡ None) × (g ≡ r))
            (λ e. bad_geometry r ≡ Some e) }
    {
        if r.block_size != 512
            && r.block_size != 1024
            && r.block_size != 2048
            && r.block_size != 4096
        {
            return Err(BadGeometry::BlockSize);
        }
        if r.blocks > 4_194_304 {
            return Err(BadGeometry::Blocks);
        }
        if r.inodes == 0 || r.inodes > 65_536 {
            return Err(BadGeometry::Inodes);
        }
        if r.name_max < 12 || r.name_max > 252 || r.name_max % 4 != 0 {
            return Err(BadGeometry::NameMax);
        }
        let entries = (r.block_size - 32) / 4;
        if r.direct == 0 || r.direct > entries || r.indirect > entries - r.direct {
            return Err(BadGeometry::Pointers);
        }
        let first = 3 + 2 * pairs_of_imap_nodes(r.block_size, r.blocks) + 2 * r.inodes;
        if r.blocks < first + 3 {
            return Err(BadGeometry::Room);
        }
        Ok(Geometry { request: r })
    }

    /// What the geometry was made of. A body whose proof needs the limits, and nothing else of
    /// this, calls it too, as `let _within_limits = g.request();`.
    #[tactic(auto, unfolding(crate::specs::layout::Places::bad_geometry))]
    pub fn request(&self) -> Request
        ensures same { result ≡ self.now }
        ensures geometry { IsGeometry self.now }
        ensures limits { IsWithinLimits self.now }
    {
        self.request
    }

    /// Whether the bitmap of used blocks lies in the metaroot.
    pub fn is_inline(&self) -> bool
        ensures { result ≡ is_inline_of self.now }
    {
        self.request.blocks.saturating_sub(3) <= 8 * (self.request.block_size - 32)
    }

    /// The number of pairs of imap nodes, 0 where the bitmap is inline.
    pub fn imap_nodes(&self) -> u32
        ensures count { result ≡ imap_nodes_of self.now }
        ensures enough { is_inline_of self.now ≡ false → HaveRoom self.now result }
        ensures least { is_inline_of self.now ≡ false → (k : ℕ) → HaveRoom self.now k → result ≤ k }
        ensures some { is_inline_of self.now ≡ false → 1 ≤ result }
        ensures fits { result ≤ 8 * (self.now.block_size - 32) }
        ensures most { result ≤ 1057 }
    {
        pairs_of_imap_nodes(self.request.block_size, self.request.blocks)
    }

    /// The block of an imap node's first or second place.
    pub fn imap_place(&self, node: u32, second: bool) -> u32
        requires { node < imap_nodes_of self.now }
        ensures place { result ≡ imap_place_of self.now node second }
        ensures before_table { result < table_start_of self.now }
    {
        let _within_limits = &self.request;
        place_in_pair(3, node, second)
    }

    /// The bits of a metaroot's bitmap: one for each block behind the metaroots, or one for each
    /// pair of imap nodes.
    pub fn root_bits(&self) -> u32
        ensures count { result ≡ root_bits_of self.now }
        ensures fits { result ≤ 8 * (self.now.block_size - 32) }
    {
        if self.is_inline() {
            return self.request.blocks - 3;
        }
        self.imap_nodes()
    }

    /// The bits that an imap node has room for.
    pub fn node_bits(&self) -> u32
        ensures count { result ≡ node_bits self.now.block_size }
        ensures most { result ≤ 32640 }
    {
        8 * (self.request.block_size - 16)
    }

    /// The bits that an imap node holds: those of the blocks of the image. Node i holds the bits
    /// from number `i * node_bits()` on.
    pub fn bits_of_node(&self, node: u32) -> u32
        requires { node < imap_nodes_of self.now }
        ensures { result ≡ bits_of_node self.now node }
    {
        prove!(node < self.imap_nodes());
        let before = node * self.node_bits();
        let behind = self.request.blocks - self.table_start();
        self.node_bits().min(behind.saturating_sub(before))
    }

    /// The first block of the inode table.
    pub fn table_start(&self) -> u32
        ensures { result ≡ table_start_of self.now }
    {
        let r = self.request;
        3 + 2 * pairs_of_imap_nodes(r.block_size, r.blocks)
    }

    /// The block of an inode's first or second place.
    pub fn inode_place(&self, number: u32, second: bool) -> u32
        requires from { 2 ≤ number }
        requires below { number < 2 + self.now.inodes }
        ensures place { result ≡ inode_place_of self.now number second }
        ensures in_table { result < first_allocable_of self.now }
    {
        let _within_limits = &self.request;
        place_in_pair(self.table_start(), number - 2, second)
    }

    /// The first block that files and directories may use.
    pub fn first_allocable(&self) -> u32
        ensures { result ≡ first_allocable_of self.now }
    {
        self.table_start() + 2 * self.request.inodes
    }

    /// The number of blocks that files and directories may use, at least 3.
    pub fn allocable(&self) -> u32
        ensures count { result ≡ allocable_of self.now }
        ensures room { 3 ≤ result }
    {
        self.request.blocks - self.first_allocable()
    }

    /// The greatest number of data blocks of a file.
    pub fn max_blocks(&self) -> u32
        ensures { result ≡ max_blocks_of self.now }
    {
        let r = self.request;
        let pointers = (r.block_size - 20) / 4;
        let double = (r.block_size - 32) / 4 - r.direct - r.indirect;
        r.direct + r.indirect * pointers + double * (pointers * pointers)
    }

    /// The greatest size of a file in bytes.
    pub fn max_size(&self) -> u64
        ensures { result ≡ max_size_of self.now }
    {
        let block_size = self.request.block_size;
        u64::from(self.max_blocks()) * u64::from(block_size)
    }

    /// The way to a data block.
    pub fn way(&self, index: u32) -> Way
        requires { index < max_blocks_of self.now }
        ensures way { result ≡ way_of self.now index }
        ensures within { IsWithinNodes self.now result }
    {
        let r = self.request;
        let pointers = (r.block_size - 20) / 4;
        if index < r.direct {
            return Way::Direct { entry: index };
        }
        let single = index - r.direct;
        if single < r.indirect * pointers {
            return Way::Single {
                entry: r.direct + single / pointers,
                place: single % pointers,
            };
        }
        let double = single - r.indirect * pointers;
        Way::Double {
            entry: r.direct + r.indirect + double / (pointers * pointers),
            outer: double % (pointers * pointers) / pointers,
            place: double % pointers,
        }
    }
}

// The first or second block of a pair, in pairs from a block on.
fn place_in_pair(start: u32, pair: u32, second: bool) -> u32
    requires { start + 2 * pair + 1 < 2 ^ 32 }
    ensures { result ≡ start + 2 * pair + place_of second }
{
    start + 2 * pair + u32::from(second)
}

// The pairs of imap nodes of so many blocks of this size.
fn pairs_of_imap_nodes(block_size: u32, blocks: u32) -> u32
    requires size { IsTrue (is_block_size block_size) }
    requires few { blocks ≤ 4194304 }
    ensures count { result ≡ pairs_for block_size blocks }
    ensures enough { fits_inline block_size blocks ≡ false
        → blocks - 3 - 2 * result ≤ result * node_bits block_size }
    ensures least { fits_inline block_size blocks ≡ false → (k : ℕ)
        → blocks - 3 - 2 * k ≤ k * node_bits block_size → result ≤ k }
{
    let bits = blocks.saturating_sub(3);
    if bits <= 8 * (block_size - 32) {
        return 0;
    }
    let node_bits = 8 * (block_size - 16);
    (bits + node_bits + 1) / (node_bits + 2)
}
