// Numbers among the words.
ghost use Rattle.std.specs.Prelude.{◌≡◌, ◌↔◌, ℕ, List, IfOk, IfSome, IsTrue, Some, decimal};
ghost use Rattle.vale_words.specs.Words.{IsNumber, IsSchedule};

use crate::Schedule;
use itoa::Buffer;
use std::alloc::Global;
use vale_base::{Memory, WORKERS_LIMIT};

fn is_decimal(word: &str, number: u64) -> bool
    ensures { IsTrue result ↔ (word.now ≡ decimal number) }
{
    let mut buffer = Buffer::new();
    buffer.format(number) == word
}

/// The number that a word is, where it lies within these limits.
pub fn number_within(word: &str, low: u64, high: u64) -> Option<u64>
    ensures found { IfSome result (λ n. IsNumber low high word.now n) }
    ensures complete { (n : ℕ) → IsNumber low high word.now n → result ≡ Some n }
{
    match word.parse::<u64>() {
        Ok(number) if low <= number && number <= high && is_decimal(word, number) => Some(number),
        _ => None,
    }
}

/// The same of a number that needs 32 bits.
pub fn small_number_within(word: &str, low: u32, high: u32) -> Option<u32>
    ensures found { IfSome result (λ n. IsNumber low high word.now n) }
    ensures complete { (n : ℕ) → IsNumber low high word.now n → result ≡ Some n }
{
    match number_within(word, low as u64, high as u64) {
        Some(number) => Some(number as u32),
        None => None,
    }
}

/// The schedule that a word is.
pub fn read_schedule(alloc: Global, word: &str) -> Result<Option<Schedule>, Memory>
    ensures found { IfOk result (λ o. IfSome o (λ turns. IsSchedule word.now turns)) }
    ensures complete { (turns : List ℕ) → IsSchedule word.now turns → IfOk result (λ o. o ≡ Some turns) }
{
    let mut turns = Vec::new(alloc);
    for part in word.split(',') {
        let Some(turn) = small_number_within(part, 0, WORKERS_LIMIT - 1) else {
            return Ok(None);
        };
        turns.push(turn)?;
    }
    Ok(Some(Schedule::from_vec(turns)))
}
