// How often each answer came up in a block.
ghost use Rattle.std.specs.Prelude.{◌≡◌, ℕ, ◌*◌, ◌≤◌, length, get_or, []};
ghost use Rattle.tpck.specs.Frame.{places};
ghost use Rattle.blocks.specs.Counts.{number_in, is_queued, taken_in, counted, one, noted, with};
ghost use Rattle.blocks.specs.Block.{most_used};

use gateway::ByteAnswer;

// The first number that is counted.
const FIRST_COUNTED: u8 = 3;

// The last.
const LAST_COUNTED: u8 = 16;

// How many numbers are counted.
const COUNTED: usize = 14;

// How often each number from 3 to 16 came up, 3 at place 0; how many updates were queued; and how many body bytes the dropped packets
// had taken, of all drops together.
#[repr(C)]
#[derive(Drop)]
pub struct Counts {
    pub numbers: [u32; COUNTED],
    pub queued: u32,
    pub body: u32,
}

impl Counts {
    // Nothing came up.
    pub(crate) fn none() -> Counts
        ensures { result ≡ counted [] }
    {
        Counts {
            numbers: [0; COUNTED],
            queued: 0,
            body: 0,
        }
    }

    // Counts an answer.
    pub(crate) fn add(&mut self, answer: ByteAnswer)
        requires numbers { (k : ℕ) → get_or self.old.numbers k 0 ≤ most_used }
        requires queued { self.old.queued ≤ most_used }
        requires body { self.old.body ≤ places * most_used }
        requires taken { taken_in answer ≤ places }
        ensures { self.new ≡ with answer self.old }
    {
        note(&mut self.numbers, number_in(answer));
        self.queued += queued_in(answer);
        self.body += taken_in(answer);
    }
}

// The number with which a byte is refused; 0 where it is not.
fn number_in(answer: ByteAnswer) -> u8
    ensures { result ≡ number_in answer }
{
    match answer {
        ByteAnswer::Refused(why) => why.number(),
        _ => 0,
    }
}

// 1 where an update was queued, else 0.
fn queued_in(answer: ByteAnswer) -> u32
    ensures { result ≡ one (is_queued answer) }
{
    match answer {
        ByteAnswer::Queued(_) => 1,
        _ => 0,
    }
}

// The body bytes that a dropped packet had taken; 0 where none is dropped.
fn taken_in(answer: ByteAnswer) -> u32
    requires { taken_in answer ≤ places }
    ensures { result ≡ taken_in answer }
{
    match answer {
        ByteAnswer::Refused(why) => why.body_taken() as u32,
        _ => 0,
    }
}

// Counts a number, where it is one of those that are counted.
#[tactic(auto, using(crate::proofs::Noting::noted_low, crate::proofs::Noting::noted_high, crate::proofs::Noting::noted_in))]
fn note(numbers: &mut [u32], number: u8)
    requires { (length numbers.old ≡ 14) × ((k : ℕ) → get_or numbers.old k 0 ≤ most_used) }
    ensures { numbers.new ≡ noted number numbers.old }
{
    if FIRST_COUNTED <= number && number <= LAST_COUNTED {
        numbers[usize::from(number - FIRST_COUNTED)] += 1;
    }
}
