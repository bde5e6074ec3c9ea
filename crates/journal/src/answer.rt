// Answers of twelve bytes.

ghost use Rattle.std.specs.Prelude.{◌≡◌};
ghost use Rattle.rules.specs.Calls.{numbers};
ghost use Rattle.rules.specs.Journal.{answer_bytes, faulty};
ghost use Rattle.rules.specs.Answers.{number_of, answer_of};

use rules::{Answer, Numbers, Refusal};

// "Answers are 12 bytes"
pub const ANSWER_SIZE: usize = 12;

// "mark 4E 41, kind, refusal, node or FF, three zeros, 32-bit page or FFFFFFFF"
pub fn line(kind: u8, answer: Answer) -> [u8; ANSWER_SIZE]
    ensures { result ≡ answer_bytes kind (numbers (answer_of answer)) }
{
    let n = Numbers::from(answer);
    let [b0, b1, b2, b3] = n.page.to_le_bytes();
    [0x4E, 0x41, kind, n.refusal, n.node, 0, 0, 0, b0, b1, b2, b3]
}

// "answers kind FF, refusal 13, node and page as in any refusal, and ends"; "a machine record that breaks the rules does so with refusal 1"
pub fn fault(why: Refusal) -> [u8; ANSWER_SIZE]
    ensures { result ≡ faulty (number_of why) }
{
    line(0xFF, Err(why))
}
