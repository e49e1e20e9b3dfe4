ghost use Rattle.std.specs.Prelude.{◌≡◌, ◌+◌, ◌<◌, ◌≤◌, length};
ghost use Rattle.edge_base.specs.layout.Bytes.{number_at, signature_in, is_zero};
ghost use Rattle.edge_nodes.specs.Headers.{header_in};

use byteorder::{BigEndian, ByteOrder, LittleEndian};
use edge_base::NodeFault;
use edge_word::check_word;

#[tactic(auto, unfolding(edge_base::specs::layout::Bytes::number_at))]
pub(crate) fn byte_at(b: &[u8], at: usize) -> u8
    requires { at < length b.now }
    ensures { result ≡ number_at at 1 b.now }
{
    b[at]
}

#[tactic(auto, unfolding(edge_base::specs::layout::Bytes::number_at))]
pub(crate) fn u16_at(b: &[u8], at: usize) -> u16
    requires { at + 2 ≤ length b.now }
    ensures { result ≡ number_at at 2 b.now }
{
    LittleEndian::read_u16(&b[at..])
}

#[tactic(auto, unfolding(edge_base::specs::layout::Bytes::number_at))]
pub(crate) fn u32_at(b: &[u8], at: usize) -> u32
    requires { at + 4 ≤ length b.now }
    ensures { result ≡ number_at at 4 b.now }
{
    LittleEndian::read_u32(&b[at..])
}

#[tactic(auto, unfolding(edge_base::specs::layout::Bytes::number_at))]
pub(crate) fn u64_at(b: &[u8], at: usize) -> u64
    requires { at + 8 ≤ length b.now }
    ensures { result ≡ number_at at 8 b.now }
{
    LittleEndian::read_u64(&b[at..])
}

#[tactic(auto, unfolding(edge_base::specs::layout::Bytes::is_zero))]
pub(crate) fn is_zero_from(b: &[u8], from: usize) -> bool
    requires { from ≤ length b.now }
    ensures { result ≡ is_zero from (length b.now) b.now }
{
    b[from..].iter().all(|x| *x == 0)
}

#[tactic(auto, unfolding(edge_base::specs::layout::Bytes::signature_in))]
fn signature(b: &[u8]) -> u32
    requires { 4 ≤ length b.now }
    ensures { result ≡ signature_in b.now }
{
    BigEndian::read_u32(b)
}

/// Tests what every node has: its kind's signature and its check word.
#[tactic(auto, unfolding(crate::specs::Headers::header_in))]
pub(crate) fn check_header(b: &[u8], kind: u32) -> Result<(), NodeFault>
    requires { 8 ≤ length b.now }
    ensures { result ≡ header_in kind b.now }
{
    if signature(b) != kind {
        return Err(NodeFault::WrongSignature);
    }
    if u32_at(b, 4) != check_word(&b[8..]) {
        return Err(NodeFault::WrongWord);
    }
    Ok(())
}
