use anyhow::Result;
use edge_base::{Geometry, Request};
use edge_statement::number32;
use edge_words::{need, read_words};

/// Appends the order that words spell, and what has to be attached for them.
pub fn push_words(out: &mut String, words: &[&str]) -> Result<()> {
    match read_words(words) {
        Ok(order) => writeln!(out, "  {order:?}")?,
        Err(fault) => writeln!(out, "  {fault}")?,
    }
    let attached = need(words);
    writeln!(out, "  {attached:?}")?;
    Ok(())
}

/// Appends the places of a geometry, and the ways to some data blocks of a file; or the first limit
/// that is broken.
pub fn push_geometry(out: &mut String, words: &[&str]) -> Result<()> {
    let request = Request {
        block_size: number32(words, 0)?,
        blocks: number32(words, 1)?,
        inodes: number32(words, 2)?,
        name_max: number32(words, 3)?,
        direct: number32(words, 4)?,
        indirect: number32(words, 5)?,
    };
    let geometry = match Geometry::checked(request) {
        Ok(geometry) => geometry,
        Err(limit) => {
            writeln!(out, "  {limit:?}")?;
            return Ok(());
        }
    };
    push_places(out, &geometry)?;
    for place in 6..words.len() {
        let index = number32(words, place)?;
        if index < geometry.max_blocks() {
            let way = geometry.way(index);
            writeln!(out, "  block {index}: {way:?}")?;
        }
    }
    Ok(())
}

#[tactic(auto, unfolding(edge_base::specs::layout::Places::bad_geometry))]
fn push_places(out: &mut String, g: &Geometry) -> Result<()> {
    let last = g.request().inodes + 1;
    let root = (g.inode_place(2, false), g.inode_place(2, true));
    let end = g.inode_place(last, true);
    write!(
        out,
        "  inline {}, imap nodes {}",
        g.is_inline(),
        g.imap_nodes()
    )?;
    write!(out, ", table {}, root {root:?} to {end}", g.table_start())?;
    write!(
        out,
        ", {} allocable from {}",
        g.allocable(),
        g.first_allocable()
    )?;
    writeln!(
        out,
        ", files of {} blocks, {} bytes",
        g.max_blocks(),
        g.max_size()
    )?;
    Ok(())
}
