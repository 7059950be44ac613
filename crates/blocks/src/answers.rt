// What a block call hands back.
ghost use Rattle.std.specs.Prelude.{◌≡◌};
ghost use Rattle.blocks.specs.Block.{refusal_number};

use crate::counts::Counts;
use gateway::Gateway;

// Why no byte of a block is used.
#[derive(Clone, Copy)]
pub enum BlockRefusal {
    // The reply area has fewer than 32 bytes.
    Short,
}

// How many bytes of a block were used, and how many bytes of replies were written.
#[derive(Clone, Copy)]
pub struct Used {
    pub bytes: usize,
    pub written: usize,
}

// The gateway after a block.
#[derive(Drop)]
pub struct Blocked {
    pub gateway: Gateway,
    pub answer: Result<Used, BlockRefusal>,
    pub counts: Counts,
}

impl BlockRefusal {
    // Document 01's number. A method and no From, since its name says which number.
    pub fn number(self) -> u8
        ensures { result ≡ refusal_number self }
    {
        match self {
            BlockRefusal::Short => 1,
        }
    }
}
