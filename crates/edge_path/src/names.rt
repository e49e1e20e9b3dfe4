ghost use Rattle.std.specs.Prelude.{◌≡◌};
ghost use Rattle.std.specs.Iterator.{YieldsFirstBy, item_count};
ghost use Rattle.edge_base.specs.commands.Paths.{names_in};

use std::marker::Model;

/// The names of a path that are left, in order, lent from it.
#[derive(Drop)]
pub struct PathNames<'a> {
    // Begins with a slash, where it is not empty.
    rest: &'a [u8],
}

impl<'a> Model for PathNames<'a> {
    ghost use Rattle.std.specs.Prelude.{ℕ, List};
    ghost use Rattle.edge_path.specs.Names.{names_left};

    ghost Value = { List (List ℕ) };

    ghost view = { λ names. names_left names.rest.now };
}

impl<'a> Iterator for PathNames<'a> {
    type Item = &'a [u8];

    ghost next_gives = { YieldsFirstBy (λ name. name.now) (λ names. names) };

    ghost remaining = { item_count (λ names. names) };

    fn next(&mut self) -> Option<&'a [u8]> {
        let (_, after) = self.rest.split_first()?;
        let end = after.iter().position(|b| *b == b'/').unwrap_or(after.len());
        let (name, rest) = after.split_at(end);
        self.rest = rest;
        Some(name)
    }
}

/// The names of a path that begins with `/`.
pub(crate) fn names(path: &[u8]) -> PathNames<'_>
    ensures { result ≡ names_in path.now }
{
    let rest = if path.len() > 1 {
        path
    } else {
        &path[path.len()..]
    };
    PathNames { rest }
}
