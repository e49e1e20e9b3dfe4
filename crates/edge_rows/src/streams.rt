use crate::orders::clock_of;
use crate::row::Row;
use anyhow::{Result, ensure};
use edge_io::{
    Clock, Folder, FolderItem, ItemKind, MemoryFolder, MemorySink, MemorySource, Sink, Source,
};
use edge_statement::{number, push_escaped, push_lines, unescaped, word};
use std::alloc::Global;

/// Reads from a source of the script with room for so many bytes at each call, and appends what
/// each gives.
pub fn push_source(alloc: Global, out: &mut String, row: &Row, words: &[&str]) -> Result<()> {
    let mut source = MemorySource::new(alloc, &row.script, &row.source_fails)?;
    for place in 0..words.len() {
        let mut bytes = vec![in alloc; 0u8; number(words, place)?]?;
        write!(out, "  {}: ", bytes.len())?;
        match source.read(&mut bytes) {
            Ok(count) => push_escaped(out, &bytes[..count])?,
            Err(fault) => write!(out, "{fault}")?,
        }
        out.push('\n')?;
    }
    Ok(())
}

/// Writes each word to a sink, and appends how many bytes it took.
pub fn push_sink(alloc: Global, out: &mut String, row: &Row, words: &[&str]) -> Result<()> {
    let mut sink = MemorySink::new(alloc, row.sink_room, &row.sink_fails)?;
    for word in words {
        match sink.write(word.as_bytes()) {
            Ok(count) => writeln!(out, "  {word}: {count}")?,
            Err(fault) => writeln!(out, "  {word}: {fault}")?,
        }
    }
    push_lines(out, '<', sink.taken())?;
    Ok(())
}

/// Appends as many moments as are asked for.
pub fn push_clock(alloc: Global, out: &mut String, row: &Row, count: usize) -> Result<()> {
    let mut clock = clock_of(alloc, &row.moments)?;
    write!(out, " ")?;
    for _ in 0..count {
        write!(out, " {}", clock.now())?;
    }
    out.push('\n')?;
    Ok(())
}

// A directory with a file in it, and a file that comes after them.
const ITEMS: [FolderItem<'static>; 3] = [
    FolderItem {
        path: b"b",
        kind: ItemKind::Directory,
        bytes: b"none",
    },
    FolderItem {
        path: b"b/c",
        kind: ItemKind::File,
        bytes: b"xyz",
    },
    FolderItem {
        path: b"a",
        kind: ItemKind::File,
        bytes: b"uvw",
    },
];

/// Asks a folder of the directory `b`, the file `b/c` of `xyz` and the file `a` of `uvw`.
pub fn push_folder(alloc: Global, out: &mut String, row: &Row, calls: &[&str]) -> Result<()> {
    let mut folder = MemoryFolder::new(alloc, &ITEMS, &row.folder_fails)?;
    let mut room = vec![in alloc; 0u8; 4096]?;
    for call in calls {
        push_folder_call(out, &mut folder, &mut room, call)?;
    }
    Ok(())
}

/// Asks a folder by `next`, or by `bytes`, which has room for two, and appends what it answers.
pub fn push_folder_call<F: Folder>(
    out: &mut String,
    folder: &mut F,
    room: &mut [u8],
    call: &str,
) -> Result<()> {
    ensure!(room.len() == 4096, "no room for a path");
    write!(out, "  {call}: ")?;
    if call == "bytes" {
        match folder.bytes(&mut room[..2]) {
            Ok(count) => push_escaped(out, &room[..count.min(2)])?,
            Err(fault) => write!(out, "{fault}")?,
        }
    } else {
        match folder.next(room) {
            Ok(Some(item)) => {
                let kind = item.kind;
                write!(out, "{kind:?} ")?;
                push_escaped(out, &room[..item.path_len])?;
            }
            Ok(None) => write!(out, "none")?,
            Err(fault) => write!(out, "{fault}")?,
        }
    }
    out.push('\n')?;
    Ok(())
}
