// Carrying out whole logs of calls.
ghost use Rattle.std.specs.Prelude.{◌≡◌, map, length};
ghost use Rattle.history.specs.Courses.{Course, account_of};
ghost use Rattle.history.specs.Memories.{SamePlaces};
ghost use Rattle.history.specs.Replies.{answer_to, first_places};
ghost use Rattle.history.specs.Runs.{Carries, Continues, Runs};
ghost use Rattle.semantics.specs.Questions.{reading_after, reply, rows_after};

use crate::memory::Memory;
use crate::step::{Answer, Call, Question, Step};
use engine::question;
use graph::editable_graph::EditableGraph;
use graph::graph::Graph;
use rdf::refusal::Refusal;
use semantics::worked::Worked;

// Puts a question in the first places of the lent memory.
fn ask<G: Graph>(graph: &G, question: &Question, memory: &mut Memory) -> Result<Worked, Refusal>
    ensures answer { result ≡ reply (answer_to (length memory.old.reading.now) (length memory.old.rows.now) (G.triples graph.now) question.now) }
    ensures same { SamePlaces memory.old memory.new }
    ensures reading { memory.new.reading.now ≡ first_places question.now.reading (reading_after (answer_to (length memory.old.reading.now) (length memory.old.rows.now) (G.triples graph.now) question.now) (G.triples graph.now)) memory.old.reading.now }
    ensures rows { memory.new.rows.now ≡ first_places question.now.rows (rows_after (answer_to (length memory.old.reading.now) (length memory.old.rows.now) (G.triples graph.now) question.now)) memory.old.rows.now }
{
    let places = question.reading.min(memory.reading.len());
    let share = question.rows.min(memory.rows.len());
    question::ask(
        question.strategy,
        graph,
        &question.query,
        &question.start,
        &mut memory.reading[..places],
        &mut memory.rows[..share],
    )
}

// Carries out one call.
fn carry_out<G: EditableGraph>(
    graph: &mut G,
    call: &Call,
    memory: &mut Memory,
) -> Result<Answer, Refusal>
    ensures { Carries G.Graph.make G.Graph.triples G.Graph.room G.Graph.full G.frame G.unaltered (length memory.old.reading.now) (length memory.old.rows.now) call.now graph.old memory.old (Some result) graph.new memory.new }
{
    match call {
        Call::Next(after) => Ok(Answer::Least(graph.next(*after))),
        Call::Add(triple) => graph.add(*triple).map(|()| Answer::Accepted),
        Call::Remove(triple) => graph.remove(*triple).map(|()| Answer::Accepted),
        Call::Free => Ok(Answer::Places(graph.free())),
        Call::Ask(question) => ask(&*graph, question, memory).map(Answer::Solved),
    }
}

// Carries out the calls of a log in their order, and writes each answer beside its call.
// Whatever course brought the graph to its set: with these calls after it, it is the course of the graph as it then is.
pub fn run<G: EditableGraph>(graph: &mut G, log: &mut [Step], memory: &mut Memory)
    ensures calls { map (λ x. x.call) log.new ≡ map (λ x. x.call) log.old }
    ensures same { SamePlaces memory.old memory.new }
    ensures runs { Runs G.Graph.make G.Graph.triples G.Graph.room G.Graph.full G.frame G.unaltered (length memory.old.reading.now) (length memory.old.rows.now) graph.old memory.old log.new graph.new memory.new }
    ensures framed { G.frame graph.old graph.new }
    ensures make { G.Graph.make graph.new ≡ G.Graph.make graph.old }
    ensures course { (c : Course) → account_of c ≡ G.Graph.triples graph.old → Continues G.Graph.make G.Graph.triples G.Graph.room G.Graph.full (length memory.old.reading.now) (length memory.old.rows.now) c graph.old memory.old log.new graph.new memory.new }
{
    for step in log.iter_mut() {
        step.answer = Some(carry_out(graph, &step.call, memory));
    }
}
