ghost use Rattle.std.specs.Prelude.{◌≡◌, ℕ, ◌*◌, ◌^◌, ◌<◌, Bool, not, List, if◌then◌else◌};

use std::marker::Model;

/// An edge to a node: twice the node, plus 1 where the edge negates. Nodes count from 0, and node 0
/// is the constant false, so the gate 0 is false and the gate 1 is true.
#[derive(Clone, Copy, Debug, PartialEq, Eq, PartialOrd, Ord)]
pub struct Gate(u32);

impl Model for Gate {
    ghost use Rattle.std.specs.Prelude.{ℕ};

    ghost Value = { ℕ };

    ghost view = { λ g. g.0 };

    ghost inverse = { λ n. record { 0 = n } };
}

/// A node of a circuit. The gates of a conjunction are edges to nodes before it.
#[derive(Clone, Copy, Debug, PartialEq, Eq)]
pub enum Node {
    /// The constant false.
    Zero,
    /// An input, whose value is free.
    Input,
    /// The conjunction of two gates.
    And(Gate, Gate),
}

impl Gate {
    ghost use Rattle.gate_core.specs.declared.circuit.Node.{Node};
    ghost use Rattle.gate_core.specs.Circuit.{negation, value, IsCircuit, IsOf};

    /// The edge to a node that does not negate.
    pub(crate) fn of_node(node: u32) -> Gate
        requires { node < 2 ^ 31 }
        ensures { result ≡ 2 * node }
    {
        Gate(2 * node)
    }

    /// Twice the node, plus 1 where the edge negates.
    pub fn number(self) -> u32
        ensures { result ≡ self }
    {
        self.0
    }

    /// The gate that is always false, or always true.
    pub fn constant(truth: bool) -> Gate
        ensures gate { result ≡ (if truth then 1 else 0) }
        ensures value { (inputs : ℕ → Bool) (nodes : List Node) → IsCircuit nodes → value inputs nodes result ≡ truth }
        ensures of { (nodes : List Node) → IsCircuit nodes → IsOf nodes result }
    {
        Gate(u32::from(truth))
    }

    /// The gate whose value is always the other one.
    #[tactic(auto, using(crate::proofs::Conjunctions::value_negated))]
    pub fn not(self) -> Gate
        ensures gate { result ≡ negation self }
        ensures value { (inputs : ℕ → Bool) (nodes : List Node) → value inputs nodes result ≡ not (value inputs nodes self) }
        ensures of { (nodes : List Node) → IsOf nodes self → IsOf nodes result }
    {
        self.other_edge()
    }

    fn other_edge(self) -> Gate
        ensures { result ≡ negation self }
    {
        Gate(self.0 ^ 1)
    }
}
