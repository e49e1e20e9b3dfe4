//! The names of a path, in order, or why the path is refused.
#![tactic(auto)]

ghost use Rattle.std.specs.Prelude.{◌≡◌, Ok, Err, IfOk, MatchResult};
ghost use Rattle.edge_base.specs.commands.Paths.{names_of, names_in, is_invalid, is_too_long, two_paths};
ghost use Rattle.edge_base.specs.tree.Slots.{is_bad_name};

mod names;
#[cfg(test)]
mod tests;

use edge_base::Refusal;
pub use names::PathNames;
use names::names;

// The most bytes of a path.
const LONGEST_PATH: usize = 255;

/// The names of a path, lent from it: none for `/` alone. A path is Invalid where it does not begin
/// with `/`, or has a name that is empty, `.`, `..` or has a zero byte; else it is NameTooLong
/// where it has more than 255 bytes, or a name more than `name_max`.
pub fn parts(path: &[u8], name_max: u32) -> Result<PathNames<'_>, Refusal>
    ensures { result ≡ names_of name_max path.now }
{
    if is_invalid(path) {
        return Err(Refusal::Invalid);
    }
    if is_too_long(path, name_max) {
        return Err(Refusal::NameTooLong);
    }
    Ok(names(path))
}

/// The names of two paths. Both are judged Invalid before either is judged NameTooLong.
pub fn two_parts<'a, 'b>(
    one: &'a [u8],
    two: &'b [u8],
    name_max: u32,
) -> Result<(PathNames<'a>, PathNames<'b>), Refusal>
    ensures refused { MatchResult result (λ _. two_paths name_max one.now two.now ≡ Ok tt)
        (λ e. two_paths name_max one.now two.now ≡ Err e) }
    ensures names { IfOk result
        (λ both. (both.0 ≡ names_in one.now) × (both.1 ≡ names_in two.now)) }
{
    if is_invalid(one) || is_invalid(two) {
        return Err(Refusal::Invalid);
    }
    if is_too_long(one, name_max) || is_too_long(two, name_max) {
        return Err(Refusal::NameTooLong);
    }
    Ok((names(one), names(two)))
}

// Whether a path does not begin with a slash, or has a name that no path may have.
fn is_invalid(path: &[u8]) -> bool
    ensures { result ≡ is_invalid path.now }
{
    !path.starts_with(b"/") || names(path).any(is_bad_name)
}

// Whether a path has too many bytes, or a name has.
fn is_too_long(path: &[u8], name_max: u32) -> bool
    ensures { result ≡ is_too_long name_max path.now }
{
    path.len() > LONGEST_PATH || names(path).any(|name| name.len() > name_max as usize)
}

// Whether a name is empty, `.` or `..`, or has a zero byte.
fn is_bad_name(name: &[u8]) -> bool
    ensures { result ≡ is_bad_name name.now }
{
    matches!(name, [] | [b'.'] | [b'.', b'.']) || name.contains(&0)
}
