use crate::image::Image;
use anyhow::Result;
use byteorder::{ByteOrder, LittleEndian};
use edge_statement::push_escaped;

// The letters of a node that has a place of its own, and of a pointer node.
const PLACED: [&[u8]; 3] = [b"META", b"IMAP", b"INOD"];

const POINTERS: [&[u8]; 2] = [b"INDI", b"DBLI"];

/// Appends each block that begins as a node with a place of its own, with its sequence number, and
/// how many blocks begin as pointer nodes of the greatest sequence number.
pub fn push_nodes(out: &mut String, image: &Image) -> Result<()> {
    let mut greatest = 0;
    let mut pointers = 0u32;
    for (b, block) in image
        .bytes
        .chunks_exact(image.block_size as usize)
        .enumerate()
    {
        let Some((letters, sequence)) = header(block) else {
            continue;
        };
        if PLACED.contains(&letters) {
            greatest = sequence.max(greatest);
            write!(out, "  block {b}: ")?;
            push_escaped(out, letters)?;
            writeln!(out, " of {sequence}")?;
        } else if POINTERS.contains(&letters) && sequence == greatest {
            pointers = pointers.saturating_add(1);
        }
    }
    writeln!(out, "  {pointers} pointer nodes of {greatest}")?;
    Ok(())
}

// The letters of a node, and its sequence number.
fn header(block: &[u8]) -> Option<(&[u8], u64)> {
    let (letters, rest) = block.split_at_checked(4)?;
    let (_word, rest) = rest.split_at_checked(4)?;
    let (sequence, _rest) = rest.split_at_checked(8)?;
    Some((letters, LittleEndian::read_u64(sequence)))
}
