ghost use Rattle.std.specs.Prelude.{◌↔◌, IsTrue};

use crate::kinds::{are_arguments, are_whole, is_receiver};
use crate::problem::{Problem, method_in};
use crate::value::{Object, Value};
use crate::visit::reaches_all;
use sqlite_items::Items;

/// What a run of a method begins with: a heap, whose objects are numbered from 0, the receiver and
/// the arguments.
#[derive(Drop)]
pub struct Start {
    pub objects: Items<Object>,
    /// The receiver, `Null` exactly for a static method.
    pub this: Value,
    /// One value for each parameter.
    pub args: Items<Value>,
}

impl Start {
    ghost use Rattle.heap_core.specs.Start.{Fits};

    /// Whether this is a start of the problem: at most as many objects as the scope has, a receiver
    /// of the method's class exactly where it is not static, one argument for each parameter, all
    /// values of their kinds and within the scope's bits, and every object reached from the receiver
    /// or an argument. Linear in the start. Takes no memory.
    pub fn fits(&self, problem: &Problem) -> bool
        ensures { IsTrue result ↔ Fits self.now problem.now }
    {
        let method = method_in(problem);
        let ints = problem.scope.ints;
        let heap = self.objects.as_slice();
        heap.len() <= usize::from(problem.scope.objects)
            && are_whole(&problem.unit, ints, heap)
            && is_receiver(heap, method.class, method.fixed, self.this)
            && are_arguments(ints, heap, method.params.as_slice(), self.args.as_slice())
            && reaches_all(self)
    }
}
