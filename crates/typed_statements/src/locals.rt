ghost use Rattle.std.specs.Prelude.{◌≡◌, ◌≤◌, [], length, take, OnOk};
ghost use Rattle.declared_names.specs.Faults.{soonest};
ghost use Rattle.typed_statements.specs.Statements.{is_full as is_full_lem, local_faults, number_of as number_of_lem, with_local};
ghost use Rattle.typed_statements.specs.Held.{state_of};

use declared_names::{Cause, Declared, Fault, Here, Sort, earlier, is_fresh, unless};
use java_tree::Ident;
use no_memory::NoMemory;
use refusals::Many;
use sqlite_items::Items;
use std::alloc::Global;
use taco_unit::Name;
use typed_forms::byte;

/// The locals in scope, and the kinds of all that the method has declared so far.
#[derive(Drop)]
pub struct Locals {
    pub held: Vec<Declared>,
    pub sorts: Items<Sort>,
}

/// No locals.
pub fn no_locals(alloc: Global) -> Locals
    ensures { state_of result ≡ record { held = []; sorts = [] } }
{
    Locals {
        held: Vec::new(alloc),
        sorts: Items::new(alloc),
    }
}

/// Whether the method has more locals than it may have.
pub fn is_full(locals: &Locals) -> bool
    ensures { result ≡ is_full_lem (state_of locals.now) }
{
    locals.sorts.len() > 32
}

/// The number of the local that is declared next.
pub fn number_of(here: &Here<'_>, locals: &Locals) -> usize
    requires { length locals.now.sorts ≤ 32 }
    ensures { result ≡ number_of_lem here.now (state_of locals.now) }
{
    usize::from(byte(here.sorts.len())) + locals.sorts.len()
}

/// The fault of the name of a local.
#[tactic(auto, using(crate::proofs::Lists::leaves))]
pub fn local_fault(here: &Here<'_>, locals: &Locals, name: &Ident) -> Option<Fault>
    ensures { result ≡ soonest (local_faults here.now name.now (state_of locals.now)) }
{
    let fresh = is_fresh(here, locals.held.as_slice(), name);
    let twice = unless(fresh, name.at, Cause::Twice);
    let many = unless(
        locals.sorts.len() != 32,
        name.at,
        Cause::TooMany(Many::Locals),
    );
    earlier(twice, many)
}

/// One more local in scope.
pub fn declare(
    alloc: Global,
    here: &Here<'_>,
    locals: &mut Locals,
    sort: Sort,
    name: &Ident,
) -> Result<(), NoMemory>
    requires { length locals.old.sorts ≤ 32 }
    ensures { OnOk result (state_of locals.new ≡ with_local here.now sort name.now (state_of locals.old)) }
{
    let number = number_of(here, locals);
    let declared = Declared {
        name: Name::new(alloc, name.text.bytes())?,
        sort,
        number,
    };
    locals.held.push(declared)?;
    locals.sorts.push(sort)?;
    Ok(())
}

/// The end of a block: what has been declared since there were so many leaves the scope.
pub fn close(locals: &mut Locals, held: usize)
    ensures { state_of locals.new ≡ record { held = take held locals.old.held.items; sorts = locals.old.sorts } }
{
    locals.held.truncate(held);
}
