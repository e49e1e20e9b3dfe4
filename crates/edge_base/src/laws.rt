//! Laws over the definitions of `specs/`: functions without effects.

ghost use Rattle.std.specs.Prelude.{◌≡◌, ◌↔◌, ◌<◌, ◌≤◌, ℕ, ◌+◌, ◌-◌, ◌/◌, ◌==◌, ◌&&◌, not, Bool, true, false, List, ◌++◌, length, filter, count_by, Ok};
ghost use Rattle.std.specs.List.{list_any, range_with_len};
ghost use Rattle.edge_base.specs.declared.geometry.Request.{Request};
ghost use Rattle.edge_base.specs.layout.Bytes.{number_at};
ghost use Rattle.edge_base.specs.layout.Places.{is_inline_of, imap_nodes_of, table_start_of};
ghost use Rattle.edge_base.specs.layout.Sizes.{node_bits};
ghost use Rattle.edge_base.specs.tree.Chains.{is_on_chain};
ghost use Rattle.edge_base.specs.tree.Counting.{LeadTo};
ghost use Rattle.edge_base.specs.tree.Positions.{Position, same_position, has, count_of, positions_of};
ghost use Rattle.edge_base.specs.layout.Spelling.{PointerNode, SpellsPointer, pointer_in};

/// Reading answers a pointer node exactly where the block spells it.
pub fn reads_the_spelled_pointer_node()
    ensures { (g : Request) (double : Bool) (b : List ℕ) (node : PointerNode)
        → length b ≡ g.block_size
        → (pointer_in g double b ≡ Ok node)
        ↔ SpellsPointer g double (number_at 8 8 b) node.owner node.entries b }
{}

/// Where the bitmap is in imap nodes, each block from the inode table on has a bit in one of them.
pub fn each_block_has_a_bit()
    ensures { (g : Request) → 16 < g.block_size → is_inline_of g ≡ false → (b : ℕ)
        → table_start_of g ≤ b → b < g.blocks
        → (b - table_start_of g) / node_bits g.block_size < imap_nodes_of g }
{}

/// The test of positions is equality.
pub fn same_position_is_equality()
    ensures { (p q : Position) → (same_position p q ≡ true) ↔ (p ≡ q) }
{}

/// Two lists have together what the second has, and what the first has that is new.
pub fn position_counts()
    ensures { (ps qs : List Position)
        → count_of (ps ++ qs) ≡ count_of (filter (λ p. not (has qs p)) ps) + count_of qs }
{}

/// Lists with the same positions have as many.
pub fn same_members_count_the_same()
    ensures { (ps qs : List Position) → ((p : Position) → has ps p ≡ has qs p)
        → count_of ps ≡ count_of qs }
{}

/// A list whose positions another list has too has no more.
pub fn fewer_members_count_no_more()
    ensures { (ps qs : List Position) → ((p : Position) → has ps p ≡ true → has qs p ≡ true)
        → count_of ps ≤ count_of qs }
{}

/// Numbers that positions lead to are as many as the positions. With the rest they are the whole
/// range, also where some are led to in one way and others in another.
pub fn numbers_count_as_positions()
    ensures passing { (f : Position → ℕ) (ps : List Position) (test : ℕ → Bool) (a n : ℕ)
        → LeadTo f ps test a n → count_by test (range_with_len a n) ≡ count_of ps }
    ensures rest { (f : Position → ℕ) (ps : List Position) (test : ℕ → Bool) (a n : ℕ)
        → LeadTo f ps test a n
        → count_by (λ b. not (test b)) (range_with_len a n) + count_of ps ≡ n }
    ensures two_ways { (f h : Position → ℕ) (ps qs : List Position) (one two : ℕ → Bool) (a n : ℕ)
        → LeadTo f ps one a n → LeadTo h qs two a n → ((b : ℕ) → one b ≡ true → two b ≡ false)
        → count_by (λ b. not (one b) && not (two b)) (range_with_len a n) + count_of ps
        + count_of qs ≡ n }
{}

/// A node has the positions that are on the chains of its data blocks, and no others.
pub fn positions_are_on_chains()
    ensures { (g : Request) (x : ℕ) (indices : List ℕ) (p : Position)
        → has (positions_of g x indices) p
        ≡ ((p.number == x) && list_any (is_on_chain g p.form p.index) indices) }
{}
