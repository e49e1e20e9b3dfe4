ghost use Rattle.std.specs.Prelude.{◌≡◌, ◌⊎◌, ◌<◌, ◌+◌, ◌∷◌, ◌≤◌, ◌^◌, not, [], IsTrue, take, true, false};
ghost use Rattle.edge_base.specs.declared.damage.Damage.{Damage};
ghost use Rattle.edge_model.specs.declared.ask.AskFault.TheVariants.{Damaged};
ghost use Rattle.edge_model.specs.Run.{closing_trees};
ghost use Rattle.edge_model.specs.State.{State, first_state};
ghost use Rattle.edge_model.specs.Tree.{Tree};
ghost use Rattle.edge_session.specs.Line.{moments_of, moments_after};
ghost use Rattle.edge_session.specs.Object.{SourceCount, SinkCount, ObjectCount, most_points, points_of_turns, Stands, IsClosed, HasReached, Comes, Leaves};
ghost use Rattle.edge_session.specs.Script.{HoldsLines};
ghost use Rattle.edge_session.specs.Session.{is_fault, is_done, TurnsEnd, AnsweredLines, GaveNoLine, TookText, lines_by};
ghost use Rattle.edge_session.specs.Stream.{pending, used_of, ended_of};

use crate::buffers::Buffers;
use crate::ended::{Ended, How, Limit};
use crate::turn::turn;
use edge_io::{Clock, Sink, Source};
use edge_model::Ask;

// The bytes in the lines that were taken up: a line that the source failed to give whole is none of
// them.
fn taken_at(how: How, before: u64, after: u64) -> u64
    ensures failed { how ≡ How.Source → result ≡ before }
    ensures other { (how ≡ How.Source → ⊥) → result ≡ after }
{
    match how {
        How::Source => before,
        _ => after,
    }
}

// Answers a script line by line, up to its end, a limit or a fault. `b` has taken nothing up.
fn serve<A: Ask, S: Source, K: Sink, C: Clock>(
    ask: &mut A,
    src: &mut S,
    out: &mut K,
    clock: &mut C,
    limit: Limit,
    b: &mut Buffers,
) -> Ended
    requires live { A.live ask.old ≡ true }
    requires points { A.reached ask.old ≤ 2 ^ 61 }
    requires unused { used_of b.old.lines ≡ 0 }
    requires nothing_pending { pending b.old.lines ≡ [] }
    requires not_ended { ended_of b.old.lines ≡ false }

    ensures source_tells { S.tells src.new ≡ S.tells src.old }
    ensures sink_tells { K.tells out.new ≡ K.tells out.old }
    ensures clock_tells { C.tells clock.new ≡ C.tells clock.old }
    ensures origin { A.origin ask.new ≡ A.origin ask.old }
    ensures guarded { A.guarded ask.old → A.guarded ask.new }
    ensures live { A.live ask.new ≡ not (is_fault result.how) }

    ensures source { SourceCount result.how (S.faults src.old) (S.faults src.new) }
    ensures sink { SinkCount result.how (K.faults out.old) (K.faults out.new) }
    ensures object { ObjectCount result.how (A.faults ask.old) (A.faults ask.new)
        (A.damage ask.old) (A.damage ask.new) }
    ensures undamaged { (s : State) → A.stands_for ask.old s → (d : Damage)
        → result.how ≡ How.Fault (Damaged d) → ⊥ }
    ensures there { (d : Damage) → result.how ≡ How.Fault (Damaged d) → A.is_damage ask.new d }

    ensures few { result.commands ≤ limit.lines }
    ensures short { result.taken ≤ limit.bytes }
    ensures room { (is_done result.how ≡ true) ⊎ (result.how ≡ How.Source)
        ⊎ (result.commands < limit.lines) }
    ensures reached { result.how ≡ How.Limit
        → (result.commands ≡ limit.lines) ⊎ (result.taken ≡ limit.bytes) }
    ensures limit_bytes { IsTrue (S.tells src.old) → result.how ≡ How.Limit
        → HoldsLines (S.left src.old) result.commands result.taken ⊎ (result.taken ≡ limit.bytes) }
    ensures end { IsTrue (S.tells src.old) → result.how ≡ How.End → S.left src.new ≡ [] }
    ensures lines { IsTrue (S.tells src.old)
        → TurnsEnd result.how limit (S.left src.old) result.commands result.taken }
    ensures no_more { IsTrue (S.tells src.old) → result.how ≡ How.Source
        → GaveNoLine (S.left src.old) (S.left src.new) result.taken }

    ensures never_falls { A.reached ask.old ≤ A.reached ask.new }
    ensures few_points { A.reached ask.new
        ≤ A.reached ask.old + points_of_turns result.how result.commands }
    ensures standing { is_fault result.how ≡ false → (s : State) → A.stands_for ask.old s
        → Stands A.Ask ask.new }
    ensures moments { IsTrue (S.tells src.old) → IsTrue (C.tells clock.old)
        → C.moments clock.new ≡ moments_after
        (moments_of (lines_by result.how (S.left src.old) result.taken)) (C.moments clock.old) }
    ensures text { IsTrue (S.tells src.old) → IsTrue (K.tells out.old) → (t : Tree)
        → A.stands_for ask.old (first_state t)
        → TookText result.how (A.origin ask.old).request t (S.left src.old) result.commands
        (K.taken out.old) (K.taken out.new) }
    ensures tree { IsTrue (S.tells src.old) → (t : Tree) → A.stands_for ask.old (first_state t)
        → Comes A.Ask (A.origin ask.old).request t result.how (S.left src.old) result.commands
        result.taken ask.old ask.new }
{
    let mut commands = 0;
    loop {
        let taken = b.lines.used();
        let has_room = commands < limit.lines;
        match turn(ask, src, out, clock, has_room, limit.bytes, b) {
            None => commands += 1,
            Some(how) => {
                return Ended {
                    how,
                    commands,
                    taken: taken_at(how, taken, b.lines.used()),
                };
            }
        }
    }
}

// Takes the closing step where the script was read to its end, or a limit was reached.
fn close<A: Ask>(ask: &mut A, how: How) -> How
    requires live { is_done how ≡ true → A.live ask.old ≡ true }
    requires points { A.reached ask.old ≤ 2 ^ 62 }
    ensures origin { A.origin ask.new ≡ A.origin ask.old }
    ensures guarded { A.guarded ask.old → A.guarded ask.new }
    ensures left_alone { is_done how ≡ false → ask.new ≡ ask.old }
    ensures as_it_was { is_done how ≡ false → result ≡ how }
    ensures as_it_is { is_done how ≡ true → is_fault result ≡ false → result ≡ how }
    ensures live { is_done how ≡ true → A.live ask.new ≡ not (is_fault result) }
    ensures object { is_done how ≡ true → ObjectCount result (A.faults ask.old)
        (A.faults ask.new) (A.damage ask.old) (A.damage ask.new) }
    ensures undamaged { is_done how ≡ true → (s : State) → A.stands_for ask.old s
        → (d : Damage) → result ≡ How.Fault (Damaged d) → ⊥ }
    ensures there { is_done how ≡ true → (d : Damage) → result ≡ How.Fault (Damaged d)
        → A.is_damage ask.new d }
    ensures never_falls { A.reached ask.old ≤ A.reached ask.new }
    ensures one_point { A.reached ask.new ≤ A.reached ask.old + 1 }
    ensures closed { is_done how ≡ true → (s : State) → A.stands_for ask.old s
        → is_fault result ≡ false → IsClosed A.Ask s ask.old ask.new }
    ensures trees { is_done how ≡ true → (s : State) → A.stands_for ask.old s
        → HasReached A.Ask ask.old ask.new (s.committed ∷ closing_trees s) }
{
    match how {
        How::End | How::Limit => match ask.finish() {
            Ok(()) => how,
            Err(fault) => How::Fault(fault),
        },
        _ => how,
    }
}

/// Answers a script line by line: a line that spells a command is asked, at the clock's next
/// moment, and any other is bad. The text of an answer is given to the sink once the command and
/// its points are done, before the next line is taken up. At the end of the script and at a limit
/// it finishes; after a fault of the source or of the sink it takes no further point.
pub fn session<A: Ask, S: Source, K: Sink, C: Clock>(
    ask: &mut A,
    src: &mut S,
    out: &mut K,
    clock: &mut C,
    limit: Limit,
    b: &mut Buffers,
) -> Ended
    requires live { A.live ask.old ≡ true }
    requires points { A.reached ask.old ≤ 2 ^ 61 }

    ensures source_tells { S.tells src.new ≡ S.tells src.old }
    ensures sink_tells { K.tells out.new ≡ K.tells out.old }
    ensures clock_tells { C.tells clock.new ≡ C.tells clock.old }
    ensures origin { A.origin ask.new ≡ A.origin ask.old }
    ensures guarded { A.guarded ask.old → A.guarded ask.new }
    ensures live { A.live ask.new ≡ not (is_fault result.how) }

    // The first fault ends it.
    ensures source { SourceCount result.how (S.faults src.old) (S.faults src.new) }
    ensures sink { SinkCount result.how (K.faults out.old) (K.faults out.new) }
    ensures object { ObjectCount result.how (A.faults ask.old) (A.faults ask.new)
        (A.damage ask.old) (A.damage ask.new) }
    ensures undamaged { (s : State) → A.stands_for ask.old s → (d : Damage)
        → result.how ≡ How.Fault (Damaged d) → ⊥ }
    ensures there { (d : Damage) → result.how ≡ How.Fault (Damaged d) → A.is_damage ask.new d }

    ensures few { result.commands ≤ limit.lines }
    ensures short { result.taken ≤ limit.bytes }
    ensures room { result.how ≡ How.Sink → result.commands < limit.lines }
    ensures reached { result.how ≡ How.Limit
        → (result.commands ≡ limit.lines) ⊎ (result.taken ≡ limit.bytes) }
    ensures limit_bytes { IsTrue (S.tells src.old) → result.how ≡ How.Limit
        → HoldsLines (S.left src.old) result.commands result.taken ⊎ (result.taken ≡ limit.bytes) }
    ensures end { IsTrue (S.tells src.old) → result.how ≡ How.End → S.left src.new ≡ [] }
    ensures lines { IsTrue (S.tells src.old)
        → AnsweredLines result.how limit (S.left src.old) result.commands result.taken }
    ensures no_more { IsTrue (S.tells src.old) → result.how ≡ How.Source
        → GaveNoLine (S.left src.old) (S.left src.new) result.taken }

    ensures never_falls { A.reached ask.old ≤ A.reached ask.new }
    ensures few_points { A.reached ask.new
        ≤ A.reached ask.old + most_points result.how result.commands }
    ensures moments { IsTrue (S.tells src.old) → IsTrue (C.tells clock.old)
        → C.moments clock.new ≡ moments_after
        (moments_of (lines_by result.how (S.left src.old) result.taken)) (C.moments clock.old) }

    // Where the object stands for a tree, with nothing open and nothing changed.
    ensures text { IsTrue (S.tells src.old) → IsTrue (K.tells out.old) → (t : Tree)
        → A.stands_for ask.old (first_state t)
        → TookText result.how (A.origin ask.old).request t (S.left src.old) result.commands
        (K.taken out.old) (K.taken out.new) }
    ensures tree { IsTrue (S.tells src.old) → (t : Tree) → A.stands_for ask.old (first_state t)
        → Leaves A.Ask (A.origin ask.old).request t result.how (S.left src.old) result.commands
        result.taken ask.old ask.new }
{
    b.lines.begin();
    let ended = serve(ask, src, out, clock, limit, b);
    Ended {
        how: close(ask, ended.how),
        commands: ended.commands,
        taken: ended.taken,
    }
}
