// Theorems about solutions, about the two ways of working, and about the answer to a question.
ghost use Rattle.semantics.specs.Promise.{PromiseKept};
ghost use Rattle.semantics.specs.QuestionLaws.{AnswersAreDecided, AnswersAreRows, MemoryIsLeft, TopDownAcceptsMore, TreesFollowEntries};
ghost use Rattle.semantics.specs.SolutionLaws.{BlankNodesStay, ExistsIsAgreement, IgnoredRow, SolutionsAreASet, SolutionsAreRows, SolutionsSolve, TruthTells};
ghost use Rattle.semantics.specs.WorkingLaws.{BottomUpHasAsLarge, SizesAreOfSets, StepsAreRight, TopDownNeedsNoMore};

// The solutions of a pattern are in order with no row twice, and no other list in order has these members.
#[tactic(auto, using(crate::proofs::Meaning::solutions_are_a_set))]
pub fn solution_set_law()
    ensures { SolutionsAreASet }
{}

// The solutions of a pattern are exactly the rows that solve it.
#[tactic(auto, using(crate::proofs::Meaning::solutions_solve))]
pub fn solutions_law()
    ensures { SolutionsSolve }
{}

// A condition is true exactly where it holds, and false exactly where it fails.
#[tactic(auto, using(crate::proofs::Meaning::truth_tells))]
pub fn truth_law()
    ensures { TruthTells }
{}

// The solutions of a pattern are rows: sixteen places, each 0 or a term.
#[tactic(auto, using(crate::proofs::Wellformed::solutions_are_rows))]
pub fn rows_law()
    ensures { SolutionsAreRows }
{}

// A pattern that ignores the row has the same solutions at every row.
#[tactic(auto, using(crate::proofs::Ignoring::ignored_row))]
pub fn ignored_row_law()
    ensures { IgnoredRow }
{}

// FILTER by EXISTS of the current row joined with a pattern that ignores it keeps the rows that have a partner.
pub fn exists_law()
    ensures { ExistsIsAgreement }
{}

// EXISTS never takes one blank node for another.
#[tactic(auto, using(crate::proofs::Blanks::blank_nodes_stay))]
pub fn blank_node_law()
    ensures { BlankNodesStay }
{}

// The steps top down give exactly the solutions that agree with the given row.
#[tactic(auto, using(crate::proofs::Cuts::steps_are_right))]
pub fn steps_law()
    ensures { StepsAreRight }
{}

// The sizes that are listed for a question are those of the sets that are worked out for it.
pub fn working_sets_law()
    ensures { SizesAreOfSets }
{}

// Top down never needs a larger set than bottom up.
#[tactic(auto, using(crate::proofs::Sizes::top_down_needs_no_more, crate::proofs::Questions::bottom_up_has_as_large))]
pub fn top_down_law()
    ensures sizes { TopDownNeedsNoMore }
    ensures sets { BottomUpHasAsLarge }
{}

// The tree at an entry is made of the trees at the entries that it names.
#[tactic(auto, using(crate::proofs::Trees::trees_follow_entries))]
pub fn tree_law()
    ensures { TreesFollowEntries }
{}

// Which check refuses a question, and what is told where none does.
#[tactic(auto, using(crate::proofs::Questions::answers_are_decided))]
pub fn answer_law()
    ensures { AnswersAreDecided }
{}

// What is accepted bottom up is accepted top down, with the same list and no larger number.
#[tactic(auto, using(crate::proofs::Questions::top_down_accepts_more))]
pub fn both_ways_law()
    ensures { TopDownAcceptsMore }
{}

// The rows that a question answers are rows: sixteen places, each 0 or a term.
pub fn answer_rows_law()
    ensures { AnswersAreRows }
{}

// What each answer leaves in reading memory and in row memory.
#[tactic(auto, using(crate::proofs::Memory::memory_is_left))]
pub fn memory_law()
    ensures { MemoryIsLeft }
{}

// Whoever answers a question by the rules both ways, over the same triples and in memories of one size, keeps the promise.
#[tactic(auto, using(crate::proofs::Promised::promise_kept))]
pub fn promise_law()
    ensures { PromiseKept }
{}
