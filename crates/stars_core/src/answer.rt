// What a command puts out.
use crate::Ending;

/// With which status a command ends, and the text that it puts.
#[derive(Drop)]
pub struct Answer {
    pub ending: Ending,
    pub text: Vec<u8>,
}
