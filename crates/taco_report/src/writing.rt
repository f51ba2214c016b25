ghost use Rattle.std.specs.Prelude.{◌≡◌, ◌++◌, decimal, OnOk};
ghost use Rattle.std.specs.Fmt.{signed_decimal};
ghost use Rattle.taco_report.specs.Texts.{object_text, value_text};

use heap_core::Value;
use no_memory::NoMemory;
use std::alloc::Global;

/// Adds a text.
pub(crate) fn add(out: &mut Vec<u8>, text: &[u8]) -> Result<(), NoMemory>
    ensures { OnOk result (out.new.items ≡ out.old.items ++ text.now) }
{
    out.extend_from_slice(text)?;
    Ok(())
}

/// Adds a number, in decimal.
pub(crate) fn add_number(alloc: Global, out: &mut Vec<u8>, n: u64) -> Result<(), NoMemory>
    ensures { OnOk result (out.new.items ≡ out.old.items ++ decimal n) }
{
    let text = format!(in alloc; "{n}")?;
    add(out, text.as_bytes())
}

/// Adds a signed number, in decimal.
fn add_signed(alloc: Global, out: &mut Vec<u8>, z: i32) -> Result<(), NoMemory>
    ensures { OnOk result (out.new.items ≡ out.old.items ++ signed_decimal z) }
{
    let text = format!(in alloc; "{z}")?;
    add(out, text.as_bytes())
}

/// Adds `@` and the number of an object.
pub(crate) fn add_object(alloc: Global, out: &mut Vec<u8>, o: u8) -> Result<(), NoMemory>
    ensures { OnOk result (out.new.items ≡ out.old.items ++ object_text o) }
{
    add(out, b"@")?;
    add_number(alloc, out, u64::from(o))
}

/// Adds a value.
pub(crate) fn add_value(alloc: Global, out: &mut Vec<u8>, value: Value) -> Result<(), NoMemory>
    ensures { OnOk result (out.new.items ≡ out.old.items ++ value_text value) }
{
    match value {
        Value::Null => add(out, b"null"),
        Value::Obj(o) => add_object(alloc, out, o),
        Value::Num(z) => add_signed(alloc, out, z),
        Value::Flag(true) => add(out, b"true"),
        Value::Flag(false) => add(out, b"false"),
    }
}
