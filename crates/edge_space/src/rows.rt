ghost use Rattle.std.specs.Prelude.{◌≡◌, ◌<◌, ◌≤◌, ◌+◌, ◌-◌, ◌*◌, ◌^◌, min};
ghost use Rattle.edge_base.specs.layout.Places.{pointers_of, max_blocks_of};
ghost use Rattle.edge_count.specs.Runs.{first_row, row_count};

use edge_base::Geometry;

/// Numbers side by side.
#[derive(Clone, Copy, Debug, PartialEq, Eq)]
pub(crate) struct Run {
    pub(crate) first: u32,
    pub(crate) count: u32,
}

/// The part of a run that is before a number.
pub(crate) fn part_before(run: Run, number: u32) -> Run
    ensures first { result.first ≡ min run.first number }
    ensures count { result.count ≡ min run.count (number - run.first) }
{
    Run {
        first: run.first.min(number),
        count: run.count.min(number.saturating_sub(run.first)),
    }
}

/// The rows that a run lies in, where the numbers behind the first few lie in rows of one size.
pub(crate) fn rows_of(run: Run, skip: u32, size: u32) -> Run
    requires some { 0 < size }
    requires end { run.first + run.count < 2 ^ 32 }
    ensures first { result.first ≡ first_row skip size run.first }
    ensures count { result.count ≡ row_count skip size run.first run.count }
    ensures most { result.count ≤ run.count }
    ensures end { result.first + result.count ≤ run.first + run.count }
{
    let first = run.first.saturating_sub(skip) / size;
    let end = run.first + run.count;
    if end <= run.first.max(skip) {
        return Run { first, count: 0 };
    }
    Run {
        first,
        count: (end - 1 - skip) / size + 1 - first,
    }
}

/// The places of an indirect node at which a run of data blocks goes through it.
pub(crate) fn places_in(g: Geometry, run: Run, row: u32) -> Run
    requires end { run.first + run.count ≤ max_blocks_of g }
    requires begins { g.direct + row * pointers_of g < run.first + run.count }
    requires ends { run.first < g.direct + row * pointers_of g + pointers_of g }
    ensures first { result.first ≡ run.first - (g.direct + row * pointers_of g) }
    ensures end { result.first + result.count
        ≡ min (run.first + run.count - (g.direct + row * pointers_of g)) (pointers_of g) }
{
    let r = g.request();
    let pointers = (r.block_size - 20) / 4;
    let _most = g.max_blocks();
    let begin = r.direct + row * pointers;
    let first = run.first.saturating_sub(begin);
    let end = (run.first + run.count - begin).min(pointers);
    Run {
        first,
        count: end - first,
    }
}
