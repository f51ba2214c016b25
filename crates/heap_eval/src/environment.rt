use heap_core::{Object, Problem, Value};

/// What a clause is evaluated in. The classes, the most objects of a heap and the bits of a number
/// are the problem's.
#[derive(Clone, Copy)]
pub struct Environment<'a> {
    pub problem: &'a Problem,
    /// The receiver, null where there is none.
    pub this: Value,
    /// The parameters, with the values that the method was called with.
    pub locals: &'a [Value],
    /// The objects of the quantified variables around the clause, the outermost first.
    pub bound: &'a [Value],
    /// The returned value, in an `ensures` clause of a method with a result.
    pub result: Option<Value>,
    pub heap: &'a [Object],
    /// The heap of the pre-state, in which `\old` is evaluated. In a clause in which `\old` does not
    /// stand, the heap itself.
    pub before: &'a [Object],
}
