// Requests to a graph, and what they come to.
ghost use Rattle.std.specs.Prelude.{◌≡◌, Some};
ghost use Rattle.graph.specs.Histories.{History, account, then_called};
ghost use Rattle.reelbook.specs.Requests.{Course, event_of, outcome, requests, since, told as telling};

use graph::editable_graph::EditableGraph;
use graph::graph::{Graph, contains};
use rdf::refusal::Refusal;
use rdf::triple::Triple;

// What is asked of a graph.
// Kept: near to a call of a log in `history`, but what comes of it tells whether a change had an effect, which a log does not.
#[derive(Clone, Copy)]
pub enum Request {
    // To put a triple in.
    Add(Triple),
    // To take a triple out.
    Remove(Triple),
    // To tell the least triple above three numbers.
    Next(Triple),
}

// What a request comes to that is not sent back.
#[derive(Clone, Copy)]
pub enum Effect {
    // The set is changed by the one triple.
    Changed,
    // The set was so already.
    Unchanged,
    // The least triple above, or none.
    Found(Option<Triple>),
}

// A request with what came of it once it was carried out; where it is sent back, the set is as it was.
#[derive(Clone, Copy)]
pub struct Step {
    pub request: Request,
    pub outcome: Option<Result<Effect, Refusal>>,
}

// What is told of an answer to a change, by whether the change has an effect.
fn told(answer: Result<(), Refusal>, effect: bool) -> Result<Effect, Refusal>
    ensures { result ≡ telling answer effect }
{
    answer.map(|()| if effect {
        Effect::Changed
    } else {
        Effect::Unchanged
    })
}

impl Request {
    fn carry_out<G: EditableGraph>(self, graph: &mut G) -> Result<Effect, Refusal>
        ensures outcome { result ≡ outcome (G.Graph.full graph.old) self (G.Graph.triples graph.old) }
        ensures history { (h : History) → account h ≡ G.Graph.triples graph.old → account (then_called h (event_of self (Some result))) ≡ G.Graph.triples graph.new }
        ensures make { G.Graph.make graph.new ≡ G.Graph.make graph.old }
        ensures framed { G.frame graph.old graph.new }
    {
        match self {
            Request::Add(triple) => {
                let held = contains(&*graph, triple);
                told(graph.add(triple), !held)
            }
            Request::Remove(triple) => {
                let held = contains(&*graph, triple);
                told(graph.remove(triple), held)
            }
            Request::Next(triple) => Ok(Effect::Found(graph.next(triple))),
        }
    }
}

// Carries the steps out on the graph, one after the other, and writes into each what came of it. Whatever the graph's history was: its
// account, carried on over the steps, is the set that the graph then means.
pub fn carry_out<G: EditableGraph>(graph: &mut G, steps: &mut [Step])
    ensures requests { requests steps.new ≡ requests steps.old }
    ensures course { Course (G.Graph.make graph.old) (G.Graph.triples graph.old) steps.new }
    ensures history { (h : History) → account h ≡ G.Graph.triples graph.old → account (since h steps.new) ≡ G.Graph.triples graph.new }
    ensures make { G.Graph.make graph.new ≡ G.Graph.make graph.old }
    ensures framed { G.frame graph.old graph.new }
{
    for step in steps.iter_mut() {
        step.outcome = Some(step.request.carry_out(graph));
    }
}
