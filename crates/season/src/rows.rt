// Rows of anything in lent memory.
ghost use Rattle.std.specs.Prelude.{◌≡◌, ℕ, ◌<◌, ◌≤◌, Bool, length, drop, slice_index_or};
ghost use Rattle.std.specs.Fn.{FnReturnsAt};
ghost use Rattle.season.specs.Reading.{unless_at};
ghost use Rattle.season.specs.Refused.{told, given, number_of, place_of};
ghost use Rattle.season.specs.Rows.{written};

use crate::refusal::Refusal;

// Refuses at the first place of a row where a test holds; else hands on a value.
pub fn refuse_first<T, V, P, R>(row: &[T], test: P, refusal: R, value: V) -> Result<V, Refusal>
where
    P: Fn(&T) -> bool,
    R: FnOnce(usize) -> Refusal + Drop,
    V: Drop,
    requires test { P.IsAlwaysCallable test }
    requires refusal { R.IsAlwaysCallable refusal }
    ensures { (p : ℕ → Bool) (number : ℕ) →
        ((k : ℕ) (d : T) (b : Bool) → k < length row.now → FnReturnsAt P.Fn test (slice_index_or row.now k d) b → b ≡ p k) →
        ((k : ℕ) (e : Refusal) → R.post refusal k e → (number_of e ≡ number) × (place_of e ≡ k)) →
        told result ≡ unless_at p (length row.now) number (given value) }
{
    let Some(k) = row.iter().position(test) else {
        return Ok(value);
    };
    Err(refusal(k))
}

// Writes what `value` gives for each place below `n` at that place, and leaves what follows as it was. Values come by place, and not
// from a row beside: of a row that is gone through together with another the library does not say what it ends as.
pub fn write_front<T, F: Fn(usize) -> T>(row: &mut [T], n: usize, value: F)
where
    T: Copy,
    requires room { n ≤ length row.old }
    requires callable { (k : ℕ) → k < n → F.pre value k }
    ensures values { (f : ℕ → T) → ((k : ℕ) (x : T) → k < n → F.post value k x → x ≡ f k) → row.new ≡ written f n row.old }
    ensures rest { drop n row.new ≡ drop n row.old }
{
    for (k, place) in row[..n].iter_mut().enumerate() {
        *place = value(k);
    }
}
