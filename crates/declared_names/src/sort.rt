ghost use Rattle.std.specs.Prelude.{◌≡◌};
ghost use Rattle.declared_names.specs.Sorts.{fits as fits_lem, is_flag as is_flag_lem, is_int as is_int_lem, is_null_or_object as is_null_or_object_lem, is_object as is_object_lem, is_reference as is_reference_lem};

/// The kind of an expression.
#[derive(Clone, Copy, Debug, PartialEq, Eq)]
pub enum Sort {
    /// No known one, since a name in its declaration has no meaning.
    Loose,
    /// That of `null`, which every kind of objects takes.
    Null,
    Int,
    Flag,
    /// An object of the class of this number, or null.
    Object(usize),
}

fn is_int(sort: Sort) -> bool
    ensures { result ≡ is_int_lem sort }
{
    matches!(sort, Sort::Loose | Sort::Int)
}

fn is_flag(sort: Sort) -> bool
    ensures { result ≡ is_flag_lem sort }
{
    matches!(sort, Sort::Loose | Sort::Flag)
}

/// Whether it is that of an object of the class.
pub fn is_object(owner: usize, sort: Sort) -> bool
    ensures { result ≡ is_object_lem owner sort }
{
    match sort {
        Sort::Loose => true,
        Sort::Object(other) => owner == other,
        _ => false,
    }
}

fn is_reference(owner: usize, sort: Sort) -> bool
    ensures { result ≡ is_reference_lem owner sort }
{
    match sort {
        Sort::Loose | Sort::Null => true,
        Sort::Object(other) => owner == other,
        _ => false,
    }
}

fn is_null_or_object(sort: Sort) -> bool
    ensures { result ≡ is_null_or_object_lem sort }
{
    matches!(sort, Sort::Loose | Sort::Null | Sort::Object(_))
}

/// Whether a value of the second kind can stand where the first is wanted.
pub fn fits(wanted: Sort, given: Sort) -> bool
    ensures { result ≡ fits_lem wanted given }
{
    match wanted {
        Sort::Loose => true,
        Sort::Null => is_null_or_object(given),
        Sort::Int => is_int(given),
        Sort::Flag => is_flag(given),
        Sort::Object(owner) => is_reference(owner, given),
    }
}
