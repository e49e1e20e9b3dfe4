//! Lists of rows of one size, end to end.

ghost use Rattle.std.specs.Prelude.{◌≡◌, ◌≢◌, ◌<◌, ◌≤◌, ◌+◌, ◌*◌, ◌^◌, ℕ, length, replicate};
ghost use Rattle.edge_plain.specs.Kept.{row};

/// Fills a row with one value.
pub fn fill_row<T: Copy>(rows: &mut [T], size: usize, at: usize, value: T)
    requires fits { at * size + size ≤ length rows.old }
    requires small { length rows.old < 2 ^ 48 }
    ensures here { row size rows.new at ≡ replicate size value }
    ensures others { (k : ℕ) → k ≢ at → row size rows.new k ≡ row size rows.old k }
{
    for i in 0..size {
        rows[at * size + i] = value;
    }
}

/// Copies a row over another.
pub fn copy_row<T: Copy>(rows: &mut [T], size: usize, from: usize, to: usize)
    requires from { from * size + size ≤ length rows.old }
    requires to { to * size + size ≤ length rows.old }
    requires apart { from ≢ to }
    requires small { length rows.old < 2 ^ 48 }
    ensures here { row size rows.new to ≡ row size rows.old from }
    ensures others { (k : ℕ) → k ≢ to → row size rows.new k ≡ row size rows.old k }
{
    for i in 0..size {
        rows[to * size + i] = rows[from * size + i];
    }
}
