ghost use Rattle.std.specs.Prelude.{◌≡◌, ◌<◌, ◌≤◌, length, IfOk};

use crate::{Search, WrongSlot, last_filled, read_slot, seek, slot_at, spell_slot};
use edge_base::{BadGeometry, Geometry, Request};

// Names of at most 12 bytes: 32 slots of 16 bytes in a block.
fn geometry() -> Result<Geometry, BadGeometry>
    ensures block { IfOk result (λ g. g.block_size ≡ 512) }
    ensures name { IfOk result (λ g. g.name_max ≡ 12) }
{
    Geometry::checked(Request {
        block_size: 512,
        blocks: 64,
        inodes: 8,
        name_max: 12,
        direct: 4,
        indirect: 32,
    })
}

// Fills a slot of a block.
fn fill(block: &mut [u8], slot: usize, name: &[u8], number: u32)
    requires whole { length block.old ≡ 512 }
    requires slot { slot < 32 }
    requires name { length name.now ≤ 12 }
    ensures { length block.new ≡ 512 }
{
    spell_slot(name, number, &mut block[16 * slot..16 * slot + 16]);
}

// Slots 1 and 3 are filled, with the shortest and the longest name.
fn finds(g: &Geometry, block: &mut [u8], name: &[u8]) -> Result<Search, WrongSlot>
    requires size { g.now.block_size ≡ 512 }
    requires whole { length block.old ≡ 512 }
    ensures { length block.new ≡ 512 }
{
    fill(block, 1, b"a", 3);
    fill(block, 3, b"abcdefghijkl", 9);
    seek(g, block, name)
}

// Whether a slot with this name and number, and this byte at its end, is wrong.
fn is_wrong(g: &Geometry, name: &[u8], number: u32, end: u8) -> bool
    requires names { g.now.name_max ≡ 12 }
    requires name { length name.now ≤ 12 }
{
    let mut bytes = [0u8; 16];
    spell_slot(name, number, &mut bytes);
    if end != 0 {
        bytes[15] = end;
    }
    read_slot(g, &bytes).is_err()
}

#[test]
fn finds_what_was_spelled(rt: HostRuntime) {
    let mut block = [0u8; 512];
    let names: [(&str, Search); 3] = [
        ("a", Search::Found { slot: 1, number: 3 }),
        ("abcdefghijkl", Search::Found { slot: 3, number: 9 }),
        ("ab", Search::Missing { free: Some(0) }),
    ];
    if let Ok(g) = geometry() {
        for (name, answer) in names {
            assert!(rt;
                finds(&g, &mut block, name.as_bytes()).is_ok_and(|found| found == answer),
                "{name}"
            );
        }
        assert!(rt; last_filled(&g, &block, 3).is_ok_and(|last| last == Some(1)));
        assert!(rt; slot_at(&g, &block, 3).is_ok_and(|slot| slot.is_some()));
    }
}

// No number, numbers that no name has, names that no entry may have, and a byte behind a name.
#[test]
fn refuses_what_no_slot_may_say(rt: HostRuntime) {
    if let Ok(g) = geometry() {
        assert!(rt; !is_wrong(&g, b"a", 3, 0) && !is_wrong(&g, b"abcdefghijkl", 9, b'z'));
        assert!(rt; is_wrong(&g, b"a", 0, 0) && is_wrong(&g, b"a", 2, 0));
        assert!(rt; is_wrong(&g, b"a", 10, 0) && is_wrong(&g, b"", 3, 0));
        assert!(rt; is_wrong(&g, b"..", 3, 0) && is_wrong(&g, b"a/b", 3, 0));
        assert!(rt; is_wrong(&g, b"a", 3, 1) && is_wrong(&g, b"", 0, 1));
    }
}
