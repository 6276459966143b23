// What a command puts out, piece by piece.
ghost use Rattle.std.specs.Prelude.{◌≡◌, [], ◌∷◌};
ghost use Rattle.stars_core.specs.Pieces.{pieces_of};

use crate::{Answer, Ending};

/// With which status a command ends, the text that it puts, and the rows that a run puts behind it.
#[derive(Drop)]
pub struct Pieces {
    pub ending: Ending,
    pub text: Vec<u8>,
    pub rows: Option<Vec<u8>>,
}

impl Pieces {
    /// An answer in one piece.
    pub fn of(answer: Answer) -> Pieces
        ensures ending { result.ending ≡ answer.ending }
        ensures pieces { pieces_of result ≡ answer.text.items ∷ [] }
    {
        Pieces {
            ending: answer.ending,
            text: answer.text,
            rows: None,
        }
    }
}
