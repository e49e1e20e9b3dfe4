ghost use Rattle.std.specs.Prelude.{◌≡◌, ◌≤◌, ◌+◌, ◌^◌, ◌∷◌, true, length, take, is_ok, is_some, IfOk, IsTrue, OnOk, OnErr, None, Err};
ghost use Rattle.edge_base.specs.declared.damage.Damage.{Damage};
ghost use Rattle.edge_base.specs.outside.Faults.{TellsCause};
ghost use Rattle.edge_model.specs.declared.ask.AskFault.TheVariants.{Damaged};
ghost use Rattle.edge_model.specs.Asking.{damage_of};
ghost use Rattle.edge_model.specs.State.{State};
ghost use Rattle.edge_script.specs.Reading.{command_in};
ghost use Rattle.edge_session.specs.Line.{text_for, points_of, moments_for, moments_after};
ghost use Rattle.edge_session.specs.Object.{IsLed, HasReached};

use crate::lines::LONGEST_LINE;
use edge_io::Clock;
use edge_model::{Ask, AskFault};
use edge_script::{read_line, write_bad, write_reply};

/// Answers a line: a command is asked at the clock's next moment, and any other line is bad. The
/// text of the answer is written into the front of `reply`, and its length told. `scratch` and
/// `content` are what a command and its answer need.
pub fn answer<A: Ask, C: Clock>(
    ask: &mut A,
    clock: &mut C,
    line: &[u8],
    scratch: &mut [u8],
    content: &mut [u8],
    reply: &mut [u8],
) -> Result<usize, AskFault>
    requires live { A.live ask.old ≡ true }
    requires points { A.reached ask.old ≤ 2 ^ 62 }
    requires scratch { 8209 ≤ length scratch.old }
    requires content { length content.old ≡ 4096 }
    requires reply { 8256 ≤ length reply.old }

    ensures origin { A.origin ask.new ≡ A.origin ask.old }
    ensures live { A.live ask.new ≡ is_ok result }
    ensures guarded { A.guarded ask.old → A.guarded ask.new }
    ensures clock_tells { C.tells clock.new ≡ C.tells clock.old }
    ensures cause { TellsCause damage_of result (A.faults ask.old) (A.faults ask.new)
        (A.damage ask.old) (A.damage ask.new) }
    ensures undamaged { (s : State) → A.stands_for ask.old s → (d : Damage)
        → result ≡ Err (Damaged d) → ⊥ }
    ensures there { (d : Damage) → result ≡ Err (Damaged d) → A.is_damage ask.new d }
    ensures spells { OnErr result (is_some (command_in line.now) ≡ true) }
    ensures never_falls { A.reached ask.old ≤ A.reached ask.new }
    ensures two_points { A.reached ask.new ≤ A.reached ask.old + 2 }
    ensures moments { IsTrue (C.tells clock.old) → C.moments clock.new
        ≡ moments_after (moments_for (command_in line.now)) (C.moments clock.old) }

    ensures inside { IfOk result (λ n. n ≤ length reply.new) }
    ensures text { (s : State) → A.stands_for ask.old s → IfOk result (λ n. take n reply.new
        ≡ text_for (A.origin ask.old).request s (command_in line.now)) }
    ensures led { (s : State) → A.stands_for ask.old s → OnOk result
        (IsLed A.Ask (A.origin ask.old).request s (command_in line.now) ask.old ask.new) }
    ensures trees { (s : State) → A.stands_for ask.old s → HasReached A.Ask ask.old ask.new
        (s.committed ∷ points_of (A.origin ask.old).request s (command_in line.now)) }
{
    if line.len() > LONGEST_LINE {
        return Ok(write_bad(reply));
    }
    match read_line(line, scratch) {
        Err(_) => Ok(write_bad(reply)),
        Ok(command) => {
            let moment = clock.now();
            let told = ask.ask(command, moment, content)?;
            Ok(write_reply(&told, content, reply))
        }
    }
}
