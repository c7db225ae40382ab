//! The pool: nodes by number, found by origin and uses.
ghost use Rattle.std.specs.Prelude.{◌≡◌, ◌<◌, ◌≤◌, ◌+◌, ℕ, List, [], ◌∷◌, ◌++◌, All, map, take};
ghost use Rattle.std.specs.Prelude.{length, slice_get, IfErr, IfNone, IfOk, IfSome, OnErr, OnOk, Some};
ghost use Rattle.location_words.specs.declared.pair.Pair.{Pair};
ghost use Rattle.orientation.specs.declared.kind.Kind.TheVariants.{Co};
ghost use Rattle.expansion_laws.specs.Measures.{depth as depth_of};
ghost use Rattle.shape_pool.specs.Nodes.{by_number, node_id, node_kind, node_origin};
ghost use Rattle.shape_pool.specs.Nodes.{node_uses, tree_of_node, used_node};
ghost use Rattle.shape_pool.specs.Rows.{a_row, depth_at, depth_over, kind_at, most_depth};
ghost use Rattle.shape_pool.specs.Rows.{origin_at, tree_at, uses_at, AllBelow, AllHeld, HasPlaces};
ghost use Rattle.shape_pool.specs.Calls.{IsHandedIn, IsHandedInLike, IsHeldAs, IsLoaded, IsLoadedAs, IsLoadedToo};
ghost use Rattle.shape_pool.specs.Calls.{IsNode, IsNodeLike, IsRefused, IsTreeOver, StandsForNumber};
ghost use Rattle.shape_pool.specs.Calls.{Keeps, KeepsLoaded, KeepsLoadedBelow, KeepsPlaces};
ghost use Rattle.shape_pool.specs.Laws.{ids_used, IsSound};

use crate::fault::PoolFault;
use crate::handing::{hold_changed, hold_loaded, hold_made};
use crate::held::Made;
use crate::making::new_node;
use crate::node::{Node, NodeId, UseOf};
use crate::stock::Stock;
use brep_desk::Steps;
use orientation::Kind;
use std::alloc::{AllocError, Global};
use std::marker::Model;
use std::rc::Rc;
use std::sync::ledger::Ledger;

/// Shared nodes, each held once. A pool is seen as its rows, in the order of the numbers.
#[derive(Drop)]
pub struct Pool {
    stock: Stock,
}

impl Model for Pool {
    ghost use Rattle.std.specs.Prelude.{List, map};
    ghost use Rattle.shape_pool.specs.Rows.{Row};
    ghost use Rattle.shape_pool.specs.Held.{row_of, IsIndex};

    ghost Value = { List Row };

    ghost view = { λ p. map row_of p.stock };

    ghost invariant = { λ p. IsIndex p.stock };
}

impl Pool {
    /// The pool that holds nothing.
    pub fn new(alloc: Global) -> Result<Pool, AllocError>
        ensures { IfOk result (λ pool. pool ≡ []) }
    {
        Ok(Pool {
            stock: Stock::new(alloc),
        })
    }

    /// How many nodes are held. Their numbers are those below, in the order in which they came.
    pub fn mark(&self) -> u32
        ensures { result ≡ length self.now }
    {
        self.stock.held().len() as u32
    }

    /// The node of a held number. Each of its uses has the node of the number that it names.
    pub fn node(&self, id: NodeId) -> &Rc<Node>
        requires { id.0 < length self.now }
        ensures id { node_id result.now.value ≡ id.0 }
        ensures kind { node_kind result.now.value ≡ kind_at self.now id.0 }
        ensures origin { node_origin result.now.value ≡ origin_at self.now id.0 }
        ensures uses { map by_number (node_uses result.now.value) ≡ uses_at self.now id.0 }
        ensures tree { (word : ℕ → List Pair) → tree_of_node word result.now.value ≡ tree_at word self.now id.0 }
        ensures shared { All (λ u. StandsForNumber self.now (used_node u)) (node_uses result.now.value) }
    {
        self.stock.held().node(id.0 as usize)
    }

    /// The kind of a held number.
    pub fn kind(&self, id: NodeId) -> Kind
        requires { id.0 < length self.now }
        ensures { result ≡ kind_at self.now id.0 }
    {
        self.stock.held().node(id.0 as usize).kind
    }

    /// The origin of a held number.
    pub fn origin(&self, id: NodeId) -> u32
        requires { id.0 < length self.now }
        ensures { result ≡ origin_at self.now id.0 }
    {
        self.stock.held().node(id.0 as usize).origin
    }

    /// The depth of a held number's tree, which is 1 without uses.
    pub fn depth(&self, id: NodeId) -> u32
        requires { id.0 < length self.now }
        ensures depth { result ≡ depth_at self.now id.0 }
        ensures tree { (word : ℕ → List Pair) → depth_of (tree_at word self.now id.0) ≡ result }
    {
        self.stock.held().depth(id.0 as usize)
    }

    /// How many uses a node has.
    pub fn use_count(&self, id: NodeId) -> usize
        requires { id.0 < length self.now }
        ensures { result ≡ length (ids_used self.now id.0) }
    {
        self.node(id).uses.len()
    }

    /// The node that a use of a node names, uses being counted from 0.
    pub fn used_at(&self, id: NodeId, at: usize) -> NodeId
        requires id { id.0 < length self.now }
        requires at { at < length (ids_used self.now id.0) }
        ensures id { slice_get (ids_used self.now id.0) at ≡ Some result.0 }
        ensures earlier { result.0 < id.0 }
        ensures held { result.0 < length self.now }
    {
        self.laws();
        self.node(id).uses[at].node.id
    }

    /// The number that an origin was loaded as, and none where it isn't loaded.
    pub fn named(&self, origin: u32) -> Option<NodeId>
        ensures some { IfSome result (λ id. IsLoadedAs self.now origin id.0) }
        ensures none { IfNone result (¬ IsLoaded self.now origin) }
    {
        self.stock.named(origin)
    }

    /// Holds the node of an origin that isn't loaded, and gives its number.
    pub fn load(&mut self, kind: Kind, origin: u32, uses: &[UseOf]) -> Result<NodeId, PoolFault>
        requires held { AllHeld self.old uses.now }
        requires below { AllBelow self.old kind uses.now }
        requires origin { 0 < origin }
        requires new { ¬ IsLoaded self.old origin }
        ensures id { IfOk result (λ made. made.0 ≡ length self.old) }
        ensures rows { OnOk result (self.new ≡ self.old ++ a_row kind origin uses.now ∷ []) }
        ensures held { IfOk result (λ made. made.0 < length self.new) }
        ensures node { IfOk result (λ made. IsNode self.new kind origin uses.now made.0) }
        ensures tree { IfOk result (λ made. IsTreeOver self.old origin uses.now self.new made.0) }
        ensures loaded { IfOk result (λ made. IsLoadedToo self.old self.new origin made.0) }
        ensures places { KeepsPlaces self.old uses.now self.new }
        ensures err { OnErr result (self.new ≡ self.old) }
        ensures within { OnOk result (depth_over self.old uses.now ≤ most_depth) }
        ensures refused { IfErr result (IsRefused self.old origin uses.now) }
        ensures grows { length self.old ≤ length self.new }
        ensures kept { Keeps self.old self.new }
    {
        let id = hold_loaded(&mut self.stock, kind, origin, uses)?;
        Ok(id)
    }

    /// The number of the tree of a held number's origin over other uses, which have kinds below its own.
    ///
    /// It takes one step, whatever it answers. The shared node is made its own by copy on write, its uses are
    /// exchanged, and it is handed in.
    pub fn rebuild<L: Ledger>(
        &mut self,
        id: NodeId,
        uses: &[UseOf],
        steps: &mut Steps<L>,
    ) -> Result<NodeId, PoolFault>
        requires id { id.0 < length self.old }
        requires held { AllHeld self.old uses.now }
        requires below { AllBelow self.old (kind_at self.old id.0) uses.now }
        ensures steps { steps.new ≡ steps.old + 1 }
        ensures handed { IfOk result (λ made. IsHandedInLike self.old id.0 uses.now self.new made.0) }
        ensures held { IfOk result (λ made. made.0 < length self.new) }
        ensures node { IfOk result (λ made. IsNodeLike self.old id.0 uses.now self.new made.0) }
        ensures tree { IfOk result (λ made. IsTreeOver self.old (origin_at self.old id.0) uses.now self.new made.0) }
        ensures loaded { KeepsLoaded self.old self.new }
        ensures places { KeepsPlaces self.old uses.now self.new }
        ensures err { OnErr result (self.new ≡ self.old) }
        ensures within { OnOk result (depth_over self.old uses.now ≤ most_depth) }
        ensures refused { IfErr result (IsRefused self.old (origin_at self.old id.0) uses.now) }
        ensures grows { length self.old ≤ length self.new }
        ensures kept { Keeps self.old self.new }
    {
        steps.tick();
        let made = hold_changed(&mut self.stock, id, uses)?;
        Ok(made)
    }

    /// The number of the compound over these uses that stands for no record, whose origin is 0.
    pub fn wrap(&mut self, uses: &[UseOf]) -> Result<NodeId, PoolFault>
        requires held { AllHeld self.old uses.now }
        ensures handed { IfOk result (λ made. IsHandedIn self.old Co 0 uses.now self.new made.0) }
        ensures held { IfOk result (λ made. made.0 < length self.new) }
        ensures node { IfOk result (λ made. IsNode self.new Co 0 uses.now made.0) }
        ensures tree { IfOk result (λ made. IsTreeOver self.old 0 uses.now self.new made.0) }
        ensures loaded { KeepsLoaded self.old self.new }
        ensures places { KeepsPlaces self.old uses.now self.new }
        ensures err { OnErr result (self.new ≡ self.old) }
        ensures within { OnOk result (depth_over self.old uses.now ≤ most_depth) }
        ensures refused { IfErr result (IsRefused self.old 0 uses.now) }
        ensures grows { length self.old ≤ length self.new }
        ensures kept { Keeps self.old self.new }
    {
        let made = hold_made(&mut self.stock, uses)?;
        Ok(made)
    }

    /// The number of an origin over these uses, and none where no such node is held.
    pub fn find(&self, origin: u32, uses: &[UseOf]) -> Result<Option<NodeId>, AllocError>
        requires held { AllHeld self.now uses.now }
        ensures some { IfOk result (λ found. IfSome found (λ id. IsHeldAs self.now origin uses.now id.0)) }
        ensures none { IfOk result (λ found. IfNone found ((i : ℕ) → ¬ IsHeldAs self.now origin uses.now i)) }
    {
        let node = new_node(self.stock.held(), Kind::Co, origin, uses)?;
        match self.stock.find(&Made { node }) {
            Some(id) => Ok(Some(id)),
            None => Ok(None),
        }
    }

    /// Keeps the nodes with numbers below a mark, as they are, and drops the others.
    pub fn back(&mut self, mark: u32)
        requires { mark ≤ length self.old }
        ensures rows { self.new ≡ take mark self.old }
        ensures left { length self.new ≡ mark }
        ensures kept { Keeps self.new self.old }
        ensures loaded { KeepsLoadedBelow mark self.old self.new }
        ensures places { (n : ℕ) → HasPlaces self.old n → HasPlaces self.new n }
    {
        self.stock.truncate(mark);
    }

    /// What holds of every pool, by which a caller reads its trees: numbers are equal exactly where their trees are, a
    /// number's tree is its origin over the trees of its uses, kinds and depths are those of trees, and the numbers
    /// below a root are its subtrees.
    pub fn laws(&self)
        ensures { IsSound self.now }
    {
        let _ = &self.stock;
    }
}
