/// The kind of a value: `int`, `boolean`, or an object of the class of this number or null.
#[derive(Clone, Copy, Debug, PartialEq, Eq)]
pub enum Kind {
    Int,
    Flag,
    Ref(u8),
}
