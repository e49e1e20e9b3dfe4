ghost use Rattle.std.specs.Prelude.{◌≡◌, length};
ghost use Rattle.edge_base.specs.layout.Sizes.{is_block_size};

use crate::image::Image;
use anyhow::{Result, bail, ensure};
use edge_base::Geometry;
use edge_nodes::{
    bit_of, bits_of, decode_imap, decode_inode, decode_master, decode_metaroot, entry_of,
};

/// Whether so many bytes make a block.
pub fn is_block_size(length: usize) -> bool
    ensures { result ≡ is_block_size length }
{
    length == 512 || length == 1024 || length == 2048 || length == 4096
}

// The geometry that block 0 tells.
fn geometry_of(image: &Image) -> Result<Geometry> {
    let block = image.block(0)?;
    ensure!(is_block_size(block.len()), "no size of a block");
    match decode_master(block) {
        Ok(master) => Ok(master.geometry),
        Err(fault) => bail!("block 0: {fault:?}"),
    }
}

/// Appends what a block is as a node of a kind, or what is wrong with it.
pub fn push_node(out: &mut String, image: &Image, kind: &str, number: usize) -> Result<()> {
    let block = image.block(number)?;
    if kind == "master" {
        return push_master(out, block);
    }
    let geometry = geometry_of(image)?;
    if geometry.request().block_size as usize != block.len() {
        bail!("another size of a block");
    }
    if kind == "metaroot" {
        push_metaroot(out, &geometry, block)
    } else {
        push_inode(out, &geometry, block)
    }
}

fn push_master(out: &mut String, block: &[u8]) -> Result<()> {
    ensure!(is_block_size(block.len()), "no size of a block");
    match decode_master(block) {
        Ok(master) => {
            let r = master.geometry.request();
            writeln!(
                out,
                "  block size {}, blocks {}, inodes {}, name {}, direct {}, indirect {}, time {}",
                r.block_size, r.blocks, r.inodes, r.name_max, r.direct, r.indirect, master.time
            )?;
        }
        Err(fault) => writeln!(out, "  {fault:?}")?,
    }
    Ok(())
}

fn push_metaroot(out: &mut String, g: &Geometry, block: &[u8]) -> Result<()>
    requires { length block.now ≡ g.now.block_size }
{
    ensure!(block.len() >= 32, "a small block");
    match decode_metaroot(g, block) {
        Ok(root) => {
            let (blocks, inodes) = (root.free_blocks, root.free_inodes);
            let bitmap = bits_of(block, 32).len();
            write!(out, "  sequence {}, free {blocks} blocks ", root.sequence)?;
            write!(
                out,
                "{inodes} inodes, next {}, {bitmap} bytes of bits:",
                root.next
            )?;
            for i in 0..g.root_bits() {
                if bit_of(block, 32, i) {
                    write!(out, " {i}")?;
                }
            }
            out.push('\n')?;
        }
        Err(fault) => writeln!(out, "  {fault:?}")?,
    }
    Ok(())
}

/// Appends what a block is as imap node `node`, or what is wrong with it.
pub fn push_imap(out: &mut String, image: &Image, number: usize, node: u32) -> Result<()> {
    let block = image.block(number)?;
    let geometry = geometry_of(image)?;
    if geometry.request().block_size as usize != block.len() {
        bail!("another size of a block");
    }
    if node >= geometry.imap_nodes() {
        bail!("no such node");
    }
    match decode_imap(&geometry, node, block) {
        Ok(sequence) => {
            let count = geometry.bits_of_node(node);
            write!(out, "  sequence {sequence}, {count} bits:")?;
            for i in 0..count {
                if bit_of(block, 16, i) {
                    write!(out, " {i}")?;
                }
            }
            out.push('\n')?;
        }
        Err(fault) => writeln!(out, "  {fault:?}")?,
    }
    Ok(())
}

fn push_inode(out: &mut String, g: &Geometry, block: &[u8]) -> Result<()>
    requires { length block.now ≡ g.now.block_size }
{
    match decode_inode(g, block) {
        Ok(head) => {
            let kind = head.kind;
            writeln!(
                out,
                "  {kind:?} of {} bytes, {} links, parent {}",
                head.size, head.links, head.parent
            )?;
            for i in 0..(g.request().block_size - 32) / 4 {
                let entry = entry_of(block, 32, i);
                if entry != 0 {
                    writeln!(out, "  entry {i} is {entry}")?;
                }
            }
        }
        Err(fault) => writeln!(out, "  {fault:?}")?,
    }
    Ok(())
}

/// Appends the bytes of a block, sixteen a line, without the lines that repeat the last one's byte
/// to the block's end.
pub fn push_block(out: &mut String, block: &[u8]) -> Result<()> {
    let last = block.last().copied().unwrap_or(0);
    let rest = block.iter().rev().take_while(|byte| **byte == last).count();
    let shown = block.len().saturating_sub(rest);
    for (n, row) in block.chunks(16).enumerate() {
        if n.saturating_mul(16) >= shown {
            break;
        }
        write!(out, " ")?;
        for byte in row {
            write!(out, " {byte:02x}")?;
        }
        out.push('\n')?;
    }
    writeln!(out, "  {last:02x} to the end")?;
    Ok(())
}
