use heap_core::{Object, Value};
use sqlite_items::Items;
use taco_unit::{Expr, Op, Stmt};

/// A method that runs.
#[derive(Drop)]
pub struct Activation {
    /// The receiver, `Null` for a static method.
    pub this: Value,
    /// The parameters and behind them the other locals.
    pub locals: Items<Value>,
    /// How many calls may still be nested.
    pub left: u8,
}

/// What waits for a value, for the end of a statement, or for the end of a called method.
#[derive(Drop)]
pub enum Wait<'a> {
    /// The value is an object, of which this field is read.
    Read(u8),
    /// The value is negated, as a number or as a truth value.
    Neg,
    Not,
    /// The value is the operator's first operand. The second is to be evaluated.
    Right(Op, &'a Expr),
    /// The value is the operator's second operand, and this its first.
    Apply(Op, Value),
    /// The value is what `&&` or `||` gives.
    Truth,
    /// The value is the target of a call of this method, of which these are the arguments.
    Target {
        method: u8,
        rest: &'a [Expr],
        wanted: bool,
    },
    /// The value is an argument. Those before it and behind it.
    Argument {
        method: u8,
        target: Option<Value>,
        args: Items<Value>,
        rest: &'a [Expr],
        wanted: bool,
    },
    /// The value is what this local is set to.
    Set(u8),
    /// The value is the object of which a field is to be set to what the expression gives.
    Write(u8, &'a Expr),
    /// The value is what this field of this object is set to.
    Store(u8, Value),
    /// The value is the object of which a field is stepped.
    Step(u8, bool),
    /// The value says which of two statements is executed.
    Branch(&'a Stmt, &'a Stmt),
    /// The value says whether the loop goes on, of which this many turns are left.
    Turn(u8, &'a Expr, &'a Stmt),
    /// The value is returned.
    Return,
    /// The statement that ends is one of a block, before these.
    Rest(&'a [Stmt]),
    /// The statement that ends is the body of a loop, of which this many turns are left.
    Again(u8, &'a Expr, &'a Stmt),
    /// The method that ends was called by this one, which wants its value or not. Where it goes to
    /// its end it gives `otherwise`.
    Caller {
        caller: Activation,
        otherwise: Option<Value>,
        wanted: bool,
    },
}

/// How a run ends.
#[derive(Clone, Copy, Debug, PartialEq, Eq)]
pub enum Outcome {
    Value(Value),
    /// The method gives no value.
    Nothing,
    /// It throws.
    Thrown,
    /// It leaves the scope, or is not run.
    Unknown,
}

/// What a machine does next.
#[derive(Clone, Copy)]
pub enum Task<'a> {
    Evaluate(&'a Expr),
    Execute(&'a Stmt),
    /// The value of an expression is known.
    Give(Value),
    /// A statement has come to its end.
    Go,
    /// The method that runs returns.
    Return(Option<Value>),
    /// The run has ended.
    End(Outcome),
}

/// The state of a run: what waits, the latest last, the method that runs, and the heap.
#[derive(Drop)]
pub struct Machine<'a> {
    pub waits: Items<Wait<'a>>,
    pub frame: Activation,
    pub heap: Vec<Object>,
}
