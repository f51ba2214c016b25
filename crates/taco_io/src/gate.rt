/// What a worker enters before it asks about a tuple. The call tells nothing and changes no
/// answer; a test can hold a worker here until another has entered.
pub trait Gate {
    fn enter(&self, worker: u32, tuple: u32);
}

/// A gate that holds nobody.
#[derive(Clone, Copy, Debug)]
pub struct OpenGate;

impl Gate for OpenGate {
    fn enter(&self, _worker: u32, _tuple: u32) {}
}
