ghost use Rattle.std.specs.Prelude.{◌≡◌, ◌==◌, ℕ, MatchOption, slice_index};
ghost use Rattle.caf_command.specs.Number.{IsNumberIn};

/// The most digits of a number.
const DIGITS: usize = 10;

/// The number that the text writes; None exactly where it writes none from `least` to `most`.
pub(crate) fn number_in(text: &str, least: u64, most: u64) -> Option<u64>
    ensures { MatchOption result ((n : ℕ) → ¬ IsNumberIn least most text.now n) (λ n. IsNumberIn least most text.now n) }
{
    if text.len() > DIGITS || begins_with_plus(text.as_bytes()) {
        return None;
    }
    match text.parse::<u64>() {
        Ok(n) => {
            if n < least || n > most {
                return None;
            }
            Some(n)
        }
        Err(_) => None,
    }
}

fn begins_with_plus(bytes: &[u8]) -> bool
    ensures { result ≡ (slice_index bytes.now 0 == 43) }
{
    match bytes {
        [] => false,
        [first, ..] => *first == b'+',
    }
}
