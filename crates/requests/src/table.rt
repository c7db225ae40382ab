//! The requests of a step and its rule.
ghost use Rattle.std.specs.Prelude.{◌≡◌, ◌≢◌, ◌<◌, ◌∷◌, ◌++◌, ◌↔◌, ℕ, List, [], length, OnOk, OnErr, Err};
ghost use Rattle.orientation.specs.Rules.{usual};
ghost use Rattle.requests.specs.declared.fault.AddFault.TheVariants.{KindMismatch, NoMemory};
ghost use Rattle.requests.specs.Readings.{StandsForStep};
ghost use Rattle.requests.specs.Numbered.{a_table, live_at, match_at, ActFits, IsHeldIn, Table};

use crate::fault::AddFault;
use crate::fit::fits;
use crate::live::{last_allowing, live_of, note};
use crate::request::{Act, Request};
use expansion_laws::laws::equal_trees_tell;
use indexmap::IndexSet;
use location_words::WordId;
use location_words::laws::test_tells;
use orientation::{Rule, Turn};
use shape_pool::{NodeId, Pool};
use std::alloc::{AllocError, Global};
use std::marker::Model;

/// The requests of a step in the order given, and its rule. The live requests of each node are found by its number.
#[derive(Drop)]
pub struct RequestTable {
    given: Vec<Request>,
    sources: IndexSet<u32>,
    live: Vec<Vec<Request>>,
    rule: Rule,
}

impl Model for RequestTable {
    ghost use Rattle.requests.specs.Numbered.{Table, a_table};
    ghost use Rattle.requests.specs.Indexed.{IsIndexed};

    ghost Value = { Table };

    ghost view = { λ t. a_table t.given.items t.rule };

    ghost invariant = { λ t. IsIndexed t.given.items t.sources.keys t.live.items };
}

impl RequestTable {
    /// The table without requests, under the rule of a step that sets none.
    pub fn new(alloc: Global) -> RequestTable
        ensures { result ≡ a_table [] usual }
    {
        RequestTable {
            given: Vec::new(alloc),
            sources: IndexSet::new(alloc),
            live: Vec::new(alloc),
            rule: Rule::usual(),
        }
    }

    /// Sets the rule of the step.
    pub fn set_rule(&mut self, rule: Rule)
        ensures { self.new ≡ a_table self.old.requests rule }
    {
        self.rule = rule;
    }

    /// Gives one more request, whose target, if it has one, fits its source.
    pub fn add(&mut self, pool: &Pool, r: Request) -> Result<(), AddFault>
        requires { IsHeldIn pool.now r }
        ensures ok { OnOk result (self.new ≡ a_table (self.old.requests ++ r ∷ []) self.old.rule) }
        ensures fit { OnOk result (ActFits pool.now r.source.0 r.act) }
        ensures fits { result ≢ Err NoMemory → (result ≡ Err KindMismatch) ↔ (¬ ActFits pool.now r.source.0 r.act) }
        ensures err { OnErr result (self.new ≡ self.old) }
    {
        if let Act::Replace(by) = r.act {
            if !fits(pool, r.source, by.id) {
                return Err(AddFault::KindMismatch);
            }
        }
        match self.give(r) {
            Ok(()) => Ok(()),
            Err(_) => Err(AddFault::NoMemory),
        }
    }

    /// Gives one more request.
    fn give(&mut self, r: Request) -> Result<(), AllocError>
        ensures ok { OnOk result (self.new ≡ a_table (self.old.requests ++ r ∷ []) self.old.rule) }
        ensures err { OnErr result (self.new ≡ self.old) }
    {
        self.given.push(r)?;
        match note(&mut self.sources, &mut self.live, r) {
            Ok(()) => Ok(()),
            Err(fault) => {
                self.given.pop();
                Err(fault)
            }
        }
    }

    /// The rule of the step.
    pub fn rule(&self) -> Rule
        ensures { result ≡ self.now.rule }
    {
        self.rule
    }

    /// What gives memory.
    pub(crate) fn allocator(&self) -> Global {
        *self.given.allocator()
    }

    /// The live requests of a node, in the order given.
    pub fn live(&self, id: NodeId) -> &[Request]
        ensures { result.now ≡ live_at self.now.requests id.0 }
    {
        live_of(&self.sources, self.live.as_slice(), id.0)
    }

    /// The match of a node's occurrences under a turn and the number of a word: the last request for the node that
    /// allows them.
    pub fn find(&self, id: NodeId, turn: Turn, word: WordId) -> Option<Request>
        ensures { result ≡ match_at self.now.requests id.0 turn word.0 }
    {
        last_allowing(self.live(id), turn, word)
    }

    /// What holds of every table over held nodes: its live requests, and the ends of the edges from a node, stand for
    /// those of the tree.
    pub fn laws(&self, pool: &Pool)
        ensures { StandsForStep pool.now self.now }
    {
        tables_stand_for_steps(pool);
    }
}

/// What holds of every pool: the live requests and the edges of a table by numbers stand for those of a step among
/// trees.
pub fn tables_stand_for_steps(pool: &Pool)
    ensures { (t : Table) → StandsForStep pool.now t }
{
    pool.laws();
    equal_trees_tell();
    test_tells();
}
