ghost use Rattle.std.specs.Prelude.{◌≡◌, ℕ, ◌+◌, ◌-◌, ◌*◌, ◌/◌, ◌^◌, ◌<◌, ◌≤◌, ◌++◌, true, All, length, vec_len, slice_set, IfOk, OnOk, List};
ghost use Rattle.gate_core.specs.Circuit.{IsOf, IsCircuit};
ghost use Rattle.cnf_writer.specs.Written.{IsWritten};
ghost use Rattle.cnf_writer.specs.Progress.{root_clauses, node_clauses, IsDown, IsRooted};

use cnf_core::{Cnf, Lit};
use gate_core::{Gate, Gates, Node};
use no_memory::NoMemory;
use std::alloc::Global;

/// The literal of a gate that is no constant: the variable of a node is its place.
fn literal(gate: Gate) -> Lit
    requires { 1 < gate }
    ensures { result ≡ gate }
{
    Lit::from_number(gate.number())
}

/// Marks the node of a root, and writes what says that the root is true.
fn write_root(cnf: &mut Cnf, marks: &mut Vec<bool>, root: Gate) -> Result<(), NoMemory>
    requires within { root < 2 * vec_len marks.old }
    requires vars { cnf.old.vars + 1 ≡ vec_len marks.old }
    ensures ok { OnOk result (cnf.new ≡ record cnf.old { clauses = cnf.old.clauses ++ root_clauses root }) }
    ensures marks { OnOk result (marks.new.items ≡ slice_set marks.old.items (root / 2) true) }
    ensures wide { vec_len marks.new ≡ vec_len marks.old }
{
    let number = root.number();
    if number == 0 {
        cnf.push_clause(&[])?;
    } else if number > 1 {
        cnf.push_clause(&[literal(root)])?;
    }
    marks[(number / 2) as usize] = true;
    Ok(())
}

/// Marks the sides of a conjunction, and writes its three clauses.
fn write_node(
    cnf: &mut Cnf,
    marks: &mut Vec<bool>,
    place: u32,
    a: Gate,
    b: Gate,
) -> Result<(), NoMemory>
    requires within { place < vec_len marks.old }
    requires small { place < 2 ^ 31 }
    requires left { (1 < a) × (a < 2 * place) }
    requires right { (1 < b) × (b < 2 * place) }
    requires vars { cnf.old.vars + 1 ≡ vec_len marks.old }
    ensures ok { OnOk result (cnf.new ≡ record cnf.old { clauses = cnf.old.clauses ++ node_clauses place a b }) }
    ensures marks { OnOk result (marks.new.items ≡ slice_set (slice_set marks.old.items (a / 2) true) (b / 2) true) }
    ensures wide { vec_len marks.new ≡ vec_len marks.old }
{
    let node = Lit::positive(place);
    let (first, second) = (literal(a), literal(b));
    cnf.push_clause(&[node.negated(), first])?;
    cnf.push_clause(&[node.negated(), second])?;
    cnf.push_clause(&[node, first.negated(), second.negated()])?;
    marks[(a.number() / 2) as usize] = true;
    marks[(b.number() / 2) as usize] = true;
    Ok(())
}

/// Writes a node where it is a conjunction that is marked.
fn visit(gates: &Gates, cnf: &mut Cnf, marks: &mut Vec<bool>, place: u32) -> Result<(), NoMemory>
    requires circuit { IsCircuit gates.now }
    requires within { place < length gates.now }
    requires wide { vec_len marks.old ≡ length gates.now }
    requires vars { cnf.old.vars + 1 ≡ length gates.now }
    ensures step { OnOk result ((roots : List ℕ) → IsDown gates.now roots (place + 1) marks.old.items cnf.old.clauses → IsDown gates.now roots place marks.new.items cnf.new.clauses) }
    ensures wide { vec_len marks.new ≡ vec_len marks.old }
    ensures vars { OnOk result (cnf.new.vars ≡ cnf.old.vars) }
{
    if !marks[place as usize] {
        return Ok(());
    }
    match gates.node(place) {
        Node::And(a, b) => {
            write_node(cnf, marks, place, a, b)?;
            Ok(())
        }
        _ => Ok(()),
    }
}

/// Writes the nodes below the roots, from the last one down: a conjunction is of nodes before it.
fn write_below(gates: &Gates, cnf: &mut Cnf, marks: &mut Vec<bool>) -> Result<(), NoMemory>
    requires wide { vec_len marks.old ≡ length gates.now }
    requires vars { cnf.old.vars + 1 ≡ length gates.now }
    ensures down { OnOk result ((roots : List ℕ) → IsRooted roots (length roots) marks.old.items cnf.old.clauses → IsDown gates.now roots 0 marks.new.items cnf.new.clauses) }
    ensures vars { OnOk result (cnf.new.vars ≡ cnf.old.vars) }
{
    let mut place = gates.nodes();
    while place > 0 {
        place -= 1;
        visit(gates, cnf, marks, place)?;
    }
    Ok(())
}

/// The formula of a circuit: its satisfying assignments, seen at the inputs, are exactly the values of
/// the inputs under which all roots are true. The variable of a node is its place. The nodes below the
/// roots are written, each conjunction with its three clauses. A root that is always true has no clause,
/// one that is always false the empty clause. The time and the memory are linear in the nodes and roots.
pub fn write(alloc: Global, gates: &Gates, roots: &[Gate]) -> Result<Cnf, NoMemory>
    requires { All (IsOf gates.now) roots.now }
    ensures { IfOk result (IsWritten gates.now roots.now) }
{
    let nodes = gates.nodes();
    let mut cnf = Cnf::new(alloc, nodes - 1);
    let mut marks = vec![in alloc; false; nodes as usize]?;
    for index in 0..roots.len() {
        let root = roots[index];
        write_root(&mut cnf, &mut marks, root)?;
    }
    write_below(gates, &mut cnf, &mut marks)?;
    Ok(cnf)
}
