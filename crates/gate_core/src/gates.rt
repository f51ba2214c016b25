ghost use Rattle.std.specs.Prelude.{◌≡◌, ℕ, ◌+◌, ◌*◌, ◌<◌, ◌≤◌, ◌^◌, ◌++◌, ◌∷◌, [], ◌&&◌, Bool, length, IfOk, OnOk, OnErr, Some, slice_get, if◌then◌else◌};
ghost use Rattle.gate_core.specs.Circuit.{value, conjunction, IsOf, Keeps, IsConjunction, IsCircuit, Joins, PairsHaveOneGate, InputsBelowDecide, simplified};
ghost use Rattle.gate_core.specs.declared.circuit.Node.TheVariants.{Zero, Input};

use crate::arena::{self, Cell, END};
use crate::circuit::{Gate, Node};
use crate::conjunction;
use no_memory::NoMemory;
use std::alloc::Global;
use std::marker::Model;

/// A circuit that grows, seen as the list of its nodes. Equal conjunctions are one node: a table of
/// heads, by hash, leads to chains that are linked inside the node list.
#[derive(Drop)]
pub struct Gates {
    alloc: Global,
    cells: Vec<Cell>,
    heads: Vec<u32>,
}

impl Model for Gates {
    ghost use Rattle.std.specs.Prelude.{List};
    ghost use Rattle.gate_core.specs.declared.circuit.Node.{Node};

    ghost Value = { List Node };

    ghost use Rattle.gate_core.specs.Chains.{nodes_of, IsArena};

    ghost view = { λ a. nodes_of a.cells.items };

    ghost invariant = { λ a. IsArena a.cells.items a.heads.items };
}

impl Gates {
    /// A circuit with the constant alone.
    pub fn new(alloc: Global) -> Result<Gates, NoMemory>
        ensures { IfOk result (λ gates. gates ≡ Zero ∷ []) }
    {
        let mut cells = Vec::new(alloc);
        cells.push(Cell {
            node: Node::Zero,
            next: END,
        })?;
        let heads = vec![in alloc; END; FIRST_HEADS]?;
        Ok(Gates {
            alloc,
            cells,
            heads,
        })
    }

    /// A new input behind the nodes. Its cost is constant on average.
    #[tactic(auto, using(crate::proofs::Values::keeps_input, crate::proofs::Values::keeps_same, crate::proofs::Values::value_input))]
    pub fn input(&mut self) -> Result<Gate, NoMemory>
        ensures gate { IfOk result (λ gate. gate ≡ 2 * length self.old) }
        ensures ok { OnOk result (self.new ≡ self.old ++ Input ∷ []) }
        ensures value { IfOk result (λ gate. (inputs : ℕ → Bool) → value inputs self.new gate ≡ inputs (length self.old)) }
        ensures keeps { Keeps self.old self.new }
        ensures err { OnErr result (self.new ≡ self.old) }
    {
        let place = arena::append(self.alloc, &mut self.cells, &mut self.heads, Node::Input)?;
        Ok(Gate::of_node(place))
    }

    /// The conjunction of two gates: a gate that is known where a side is a constant, or the sides are
    /// equal or each other's negation; else the edge to the one node that holds the pair, whose sides
    /// are put in rising order. Its cost is constant on average.
    pub fn and(&mut self, a: Gate, b: Gate) -> Result<Gate, NoMemory>
        requires left { IsOf self.old a }
        requires right { IsOf self.old b }
        ensures value { IfOk result (λ gate. (inputs : ℕ → Bool) → value inputs self.new gate ≡ value inputs self.old a && value inputs self.old b) }
        ensures gate { IfOk result (IsConjunction self.new a b) }
        ensures of { IfOk result (IsOf self.new) }
        ensures nodes { OnOk result (Joins a b self.old self.new) }
        ensures keeps { Keeps self.old self.new }
        ensures err { OnErr result (self.new ≡ self.old) }
    {
        let gate = conjunction::join(self.alloc, &mut self.cells, &mut self.heads, a, b)?;
        Ok(gate)
    }

    /// The gate that is always false, or always true. No memory is taken.
    pub fn constant(&self, truth: bool) -> Gate
        ensures gate { result ≡ (if truth then 1 else 0) }
        ensures value { (inputs : ℕ → Bool) → value inputs self.now result ≡ truth }
        ensures of { IsOf self.now result }
    {
        // what holds of every circuit is known once its nodes are looked at: node 0 is the constant
        let _count = self.nodes();
        Gate::constant(truth)
    }

    /// The number of nodes, the constant included. No memory is taken.
    pub fn nodes(&self) -> u32
        ensures count { result ≡ length self.now }
        ensures circuit { IsCircuit self.now }
    {
        self.cells.len() as u32
    }

    /// The node at a place, counted from 0. No memory is taken.
    pub fn node(&self, place: u32) -> Node
        requires { place < length self.now }
        ensures { slice_get self.now place ≡ Some result }
    {
        self.cells[place as usize].node
    }
}

/// How many chains there are at first.
const FIRST_HEADS: usize = 16;

/// Pairs that are equal but for their order have one gate, at whatever time they are asked.
pub fn pairs_have_one_gate()
    ensures { PairsHaveOneGate }
{}

/// The value of a gate hangs on the inputs below it alone: on those with places up to its node's.
pub fn inputs_below_decide()
    ensures { InputsBelowDecide }
{}
