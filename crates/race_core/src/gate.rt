// What a race asks before each call.

/// Is asked before each call of a worker, with its opener's number and the call's, from 1.
pub trait Gate {
    fn enter(&self, who: u32, call: u32);
}

/// Lets every call pass at once.
#[derive(Clone, Copy, Debug)]
pub struct OpenGate;

impl Gate for OpenGate {
    fn enter(&self, _: u32, _: u32) {}
}
