// Fitting: what a course must grant a house, for any scale and book.
//
// The definitions stand in `specs/`: `Fits` says when a course fits, `Step` what the joint step is, `Laws` what is
// proved of both. There is no code here that runs: each function holds a theorem as its contract.
#![tactic(auto)]

ghost use Rattle.std.specs.Prelude.{ℕ, ◌≤◌, List};
ghost use Rattle.fitting.specs.Edges.{Graph, CountLaws};
ghost use Rattle.fitting.specs.Example.{ExampleStands};
ghost use Rattle.fitting.specs.Laws.{Laws};

use book::Book;
use house::{Fact, House};
use scale::Scale;

// Holds the laws of fitting, for every scale, every book, every house of at most 200 nodes and every list of facts. It
// does nothing when run.
pub fn laws_stand<S: Scale, B: Book<S>>()
    ensures { (b : B) (h : House S) (filed : List (Fact S)) → h.sizes.nodes ≤ 200 → Laws S.Scale.size S.Scale.has h (B.Book.says b) filed }
{}

// Holds that a rule's neighbours can be counted by edges, for every scale and every house in which each edge leads from
// a node and no pair of nodes is repeated. It does nothing when run.
pub fn counts_stand<S: Scale>()
    ensures { (h : House S) → Graph h.sizes.nodes h.edges.now → CountLaws S.Scale.size S.Scale.has h }
{}

// Holds a small house worked out by the definitions. It does nothing when run.
pub fn example_stands()
    ensures { ExampleStands }
{}
