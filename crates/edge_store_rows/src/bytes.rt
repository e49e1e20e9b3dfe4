ghost use Rattle.std.specs.Prelude.{◌<◌, ◌^◌, length};
ghost use Rattle.edge_store.specs.State.{IsLive};

use crate::answer::{Answer, push_told};
use crate::there::is_there;
use anyhow::{Result as Told, bail, ensure};
use edge_file::{fill_at, grow, read_at, set_size, write_at};
use edge_statement::{byte, number32, word};
use edge_store::{Store, StoreFault};
use std::alloc::Global;

// The most bytes that are read at once.
const READ_MOST: u32 = 65_536;
// How often bytes are written at most, one behind the other.
const TIMES_MOST: u32 = 1 << 20;

/// What a store answers to a statement on the bytes of a node: VERB NUMBER AT, and what is written.
pub fn ask_bytes<S: Store>(
    alloc: Global,
    s: &mut S,
    words: &[&str],
) -> Told<Result<Answer, StoreFault>>
    requires { IsLive (S.state s.old) }
{
    let n = number32(words, 1)?;
    let at = word(words, 2)?.parse::<u64>()?;
    Ok(match word(words, 0)? {
        "write" => write(s, n, at, &bytes_of(alloc, words)?),
        "fill" => fill(s, n, at, number32(words, 3)?, byte(alloc, word(words, 4)?)?),
        "grow" => grow_to(s, n, at),
        "resize" => resize(s, n, at),
        verb => bail!("no statement: {verb}"),
    })
}

// What is written: digits, behind the first three words, and how many times, if not once.
fn bytes_of(alloc: Global, words: &[&str]) -> Told<Vec<u8>> {
    let bytes = hex::decode(alloc, word(words, 3)?)?;
    if words.len() == 4 {
        return Ok(bytes);
    }
    let times = number32(words, 4)?;
    ensure!(times <= TIMES_MOST, "{times} times");
    let mut run = Vec::new(alloc);
    for _ in 0..times {
        run.extend_from_slice(&bytes)?;
    }
    Ok(run)
}

/// Appends the bytes that are read of a node, and how many there are: NUMBER AT COUNT.
pub fn push_read<S: Store>(alloc: Global, out: &mut String, s: &mut S, words: &[&str]) -> Told<()>
    requires { IsLive (S.state s.old) }
{
    let n = number32(words, 1)?;
    let at = word(words, 2)?.parse::<u64>()?;
    let count = number32(words, 3)?;
    ensure!(count <= READ_MOST, "{count} bytes");
    // What is not read stays as it is.
    let mut room = vec![in alloc; 0xeeu8; count as usize]?;
    let told = read(s, n, at, &mut room);
    push_told(out, told)?;
    if let Ok(Answer::Number(_)) = told {
        out.push(':')?;
        for byte in &room {
            write!(out, " {byte:02x}")?;
        }
    }
    Ok(())
}

fn read<S: Store>(s: &mut S, n: u32, at: u64, out: &mut [u8]) -> Result<Answer, StoreFault>
    requires live { IsLive (S.state s.old) }
    requires room { length out.old < 2 ^ 32 }
{
    if !is_there(s, n)? {
        return Ok(Answer::Nothing);
    }
    Ok(Answer::Number(u64::from(read_at(s, n, at, out)?)))
}

fn write<S: Store>(s: &mut S, n: u32, at: u64, bytes: &[u8]) -> Result<Answer, StoreFault>
    requires { IsLive (S.state s.old) }
{
    let most = s.geometry().max_size();
    if at > most || bytes.len() as u64 > most - at || !is_there(s, n)? {
        return Ok(Answer::Nothing);
    }
    write_at(s, n, at, bytes)?;
    Ok(Answer::Done)
}

fn fill<S: Store>(s: &mut S, n: u32, at: u64, count: u32, byte: u8) -> Result<Answer, StoreFault>
    requires { IsLive (S.state s.old) }
{
    let most = s.geometry().max_size();
    if at > most || u64::from(count) > most - at || !is_there(s, n)? {
        return Ok(Answer::Nothing);
    }
    fill_at(s, n, at, count, byte)?;
    Ok(Answer::Done)
}

fn grow_to<S: Store>(s: &mut S, n: u32, size: u64) -> Result<Answer, StoreFault>
    requires { IsLive (S.state s.old) }
{
    if size > s.geometry().max_size() || !is_there(s, n)? {
        return Ok(Answer::Nothing);
    }
    grow(s, n, size)?;
    Ok(Answer::Done)
}

fn resize<S: Store>(s: &mut S, n: u32, size: u64) -> Result<Answer, StoreFault>
    requires { IsLive (S.state s.old) }
{
    if size > s.geometry().max_size() || !is_there(s, n)? {
        return Ok(Answer::Nothing);
    }
    set_size(s, n, size)?;
    Ok(Answer::Done)
}
