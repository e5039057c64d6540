// The weights of rows in words, summed up to the limit, where the caller has seen that the rows lie within the lent words.
ghost use Rattle.std.specs.Prelude.{◌≡◌, ◌+◌, ◌*◌, ◌≤◌, length, ltb};
ghost use Rattle.masks.specs.Sums.{sum};
ghost use Rattle.rules.specs.Table.{row_words, most_weight, row_in};
ghost use Rattle.rules.specs.Desk.{head_words, row_on};

use rules::{Desk, Row};
use words::inner::row_in;

// Whether `start` and the weights of the n rows from a place on come to more than the limit. It stops at the first row
// that passes it, so that no sum wraps, whatever the words.
pub fn sum_over(words: &[u64], from: usize, n: usize, start: u64) -> bool
    requires { from + row_words * n ≤ length words.now }
    ensures { result ≡ ltb most_weight (start + sum n (λ i. (row_in words.now (from + row_words * i)).weight)) }
{
    if start > Row::MOST_WEIGHT {
        return true;
    }
    let mut left = Row::MOST_WEIGHT - start;
    for i in 0..n {
        let row = row_in(words, from + Row::WORDS * i);
        if row.weight > left {
            return true;
        }
        left -= row.weight;
    }
    false
}

// Whether `start` and the weights of the first n rows of a desk come to more than the limit, whatever the words.
pub fn over(desk: &[u64], n: usize, start: u64) -> bool
    requires { head_words + row_words * n ≤ length desk.now }
    ensures { result ≡ ltb most_weight (start + sum n (λ i. (row_on desk.now i).weight)) }
{
    sum_over(desk, Desk::HEAD, n, start)
}
