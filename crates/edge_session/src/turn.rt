ghost use Rattle.std.specs.Prelude.{◌≡◌, ◌⊎◌, ◌+◌, ◌≤◌, ◌^◌, ◌∷◌, not, [], IsTrue, Some, true, false, is_some};
ghost use Rattle.edge_base.specs.declared.damage.Damage.{Damage};
ghost use Rattle.edge_model.specs.declared.ask.AskFault.TheVariants.{Damaged};
ghost use Rattle.edge_model.specs.State.{State};
ghost use Rattle.edge_script.specs.Reading.{command_in};
ghost use Rattle.edge_session.specs.Feeds.{SeesEnd};
ghost use Rattle.edge_session.specs.Line.{text_for, points_of, moments_for, moments_after};
ghost use Rattle.edge_session.specs.Object.{IsLed, HasReached};
ghost use Rattle.edge_session.specs.Stream.{stream_of, kept_of, used_of, ended_of};
ghost use Rattle.edge_session.specs.Turn.{takes_line, is_answered, has_fault, TurnSource, TurnSink, TurnObject, Turns, Writes};

use crate::buffers::Buffers;
use crate::ended::How;
use crate::lines::Next;
use crate::reply::answer;
use edge_io::{Clock, Sink, Source, write_all};
use edge_model::Ask;

// Answers one line, where there is room for a further one, and tells why none was answered.
pub fn turn<A: Ask, S: Source, K: Sink, C: Clock>(
    ask: &mut A,
    src: &mut S,
    out: &mut K,
    clock: &mut C,
    has_room: bool,
    bytes: u64,
    b: &mut Buffers,
) -> Option<How>
    requires live { A.live ask.old ≡ true }
    requires points { A.reached ask.old ≤ 2 ^ 62 }
    requires limit { used_of b.old.lines ≤ bytes }
    requires seen { SeesEnd (S.tells src.old) (ended_of b.old.lines) (S.left src.old) }

    ensures source_tells { S.tells src.new ≡ S.tells src.old }
    ensures sink_tells { K.tells out.new ≡ K.tells out.old }
    ensures clock_tells { C.tells clock.new ≡ C.tells clock.old }
    ensures seen { SeesEnd (S.tells src.new) (ended_of b.new.lines) (S.left src.new) }
    ensures origin { A.origin ask.new ≡ A.origin ask.old }
    ensures guarded { A.guarded ask.old → A.guarded ask.new }
    ensures live { A.live ask.new ≡ not (has_fault result) }

    ensures source { TurnSource result (S.faults src.old) (S.faults src.new) }
    ensures sink { TurnSink result (K.faults out.old) (K.faults out.new) }
    ensures object { TurnObject result (A.faults ask.old) (A.faults ask.new)
        (A.damage ask.old) (A.damage ask.new) }
    ensures undamaged { (s : State) → A.stands_for ask.old s → (d : Damage)
        → result ≡ Some (How.Fault (Damaged d)) → ⊥ }
    ensures there { (d : Damage) → result ≡ Some (How.Fault (Damaged d))
        → A.is_damage ask.new d }

    ensures used { used_of b.new.lines ≤ bytes }
    ensures room { takes_line result ≡ true → has_room ≡ true }
    ensures limit { result ≡ Some How.Limit
        → (has_room ≡ false) ⊎ (used_of b.new.lines ≡ bytes) }
    ensures no_room { has_room ≡ false → used_of b.new.lines ≡ used_of b.old.lines }
    ensures end { IsTrue (S.tells src.old) → result ≡ Some How.End → S.left src.new ≡ [] }
    ensures turned { IsTrue (S.tells src.old) → Turns result
        (stream_of b.old.lines (S.left src.old)) (stream_of b.new.lines (S.left src.new))
        (S.left src.new) (kept_of b.new.lines) (ended_of b.old.lines) (ended_of b.new.lines)
        (used_of b.old.lines) (used_of b.new.lines) }

    // The line that was taken up is asked as its bytes are kept.
    ensures unasked { takes_line result ≡ false → ask.new ≡ ask.old }
    ensures no_moment { takes_line result ≡ false → clock.new ≡ clock.old }
    ensures spells { has_fault result ≡ true
        → is_some (command_in (kept_of b.new.lines)) ≡ true }
    ensures never_falls { A.reached ask.old ≤ A.reached ask.new }
    ensures two_points { A.reached ask.new ≤ A.reached ask.old + 2 }
    ensures moments { IsTrue (C.tells clock.old) → takes_line result ≡ true
        → C.moments clock.new ≡ moments_after
        (moments_for (command_in (kept_of b.new.lines))) (C.moments clock.old) }
    ensures text { IsTrue (K.tells out.old) → (s : State) → A.stands_for ask.old s
        → Writes result (text_for (A.origin ask.old).request s (command_in (kept_of b.new.lines)))
        (K.taken out.old) (K.taken out.new) }
    ensures led { (s : State) → A.stands_for ask.old s → is_answered result ≡ true
        → IsLed A.Ask (A.origin ask.old).request s (command_in (kept_of b.new.lines))
        ask.old ask.new }
    ensures trees { (s : State) → A.stands_for ask.old s → takes_line result ≡ true
        → HasReached A.Ask ask.old ask.new (s.committed ∷ points_of (A.origin ask.old).request s
        (command_in (kept_of b.new.lines))) }
{
    if !has_room {
        return match b.lines.has_more(src) {
            Ok(true) => Some(How::Limit),
            Ok(false) => Some(How::End),
            Err(_) => Some(How::Source),
        };
    }
    match b.lines.next(src, bytes) {
        Ok(Next::Line) => {}
        Ok(Next::End) => return Some(How::End),
        Ok(Next::Limit) => return Some(How::Limit),
        Err(_) => return Some(How::Source),
    }
    let line = b.lines.line();
    let len = match answer(
        ask,
        clock,
        line,
        &mut b.scratch,
        &mut b.content,
        &mut b.reply,
    ) {
        Ok(len) => len,
        Err(fault) => return Some(How::Fault(fault)),
    };
    match write_all(out, &b.reply[..len]) {
        Ok(()) => None,
        Err(_) => Some(How::Sink),
    }
}
