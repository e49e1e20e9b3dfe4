ghost use Rattle.std.specs.Prelude.{◌≡◌, ◌↔◌, List, ℕ, Some};
ghost use Rattle.edge_model.specs.Asked.{Asked};
ghost use Rattle.edge_model.specs.Asking.{IsInLimits};
ghost use Rattle.edge_model.specs.Bytes.{IsOfBytes, IsLineOfBytes};
ghost use Rattle.edge_script.specs.Commands.{SpellsCommand, IsSpellable};
ghost use Rattle.edge_script.specs.Reading.{command_in};

/// A line spells one command alone: lines that spell different commands differ.
pub fn one_command()
    ensures { (line : List ℕ) (one two : Asked) → SpellsCommand line one → SpellsCommand line two
        → one ≡ two }
{}

/// The function of a line is the command that it spells.
pub fn reads_what_is_spelled()
    ensures { (line : List ℕ) (c : Asked) → (command_in line ≡ Some c) ↔ SpellsCommand line c }
{}

/// Each command within its limits is spelled by a line.
pub fn each_command_is_spelled()
    ensures { (c : Asked) → IsSpellable c → (line : List ℕ) × SpellsCommand line c }
{}

/// The paths and the data of the command that a line spells are bytes, and it is within its limits.
pub fn spelled_commands_are_within_limits()
    ensures bytes { (line : List ℕ) (c : Asked) → SpellsCommand line c → IsOfBytes c }
    ensures limits { (line : List ℕ) (c : Asked) → SpellsCommand line c → IsInLimits c }
    ensures each_line { (line : List ℕ) → IsLineOfBytes (command_in line) }
{}
