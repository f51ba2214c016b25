ghost use Rattle.std.specs.Prelude.{◌≡◌, IfOk};
ghost use Rattle.jml_rel.specs.Links.{is_link as is_link_lem, links_of};

use no_memory::NoMemory;
use rel_core::{Indices, RelVar};
use sqlite_items::Items;
use std::alloc::Global;
use taco_unit::{FieldDef, Kind};

/// Whether the field of this number is declared, and of class kind.
fn is_link(declared: &[FieldDef], field: u8) -> bool
    ensures { result ≡ is_link_lem declared.now field }
{
    match declared.get(usize::from(field)) {
        Some(definition) => match definition.kind {
            Kind::Ref(_) => true,
            _ => false,
        },
        None => false,
    }
}

/// The relations of those of the fields that are of class kind, in order.
pub(crate) fn links(
    alloc: Global,
    declared: &[FieldDef],
    at: &Indices,
    fields: &[u8],
) -> Result<Items<RelVar>, NoMemory>
    ensures { IfOk result (λ all. all ≡ links_of declared.now at.now fields.now) }
{
    let mut all = Items::new(alloc);
    for field in fields {
        if is_link(declared, *field) {
            all.push(at.field(*field))?;
        }
    }
    Ok(all)
}
