//! Lemmas on lists, tests and results that several crates need and the standard library lacks. The crate has no code
//! that runs; `proofs/` is its content.
#![tactic(auto)]

ghost use Rattle.std.specs.Prelude.{◌≡◌, ◌<◌, ◌+◌, ◌++◌, ◌==◌, ℕ, Bool, List, Result, IsErrAnd, Some, true, length, replicate, slice_set};
ghost use Rattle.std.specs.Prelude.{slice_index, count_by};
ghost use Rattle.std.specs.List.{AllByRecursion, zip};
ghost use Rattle.list_lemmas.specs.Counting.{one_if};

/// Cites one statement of each file of lemmas.
pub fn list_law()
    ensures each { (p : ℕ → Bool) (xs ys : List ℕ) → AllByRecursion (λ x. p x ≡ true) xs
        → AllByRecursion (λ x. p x ≡ true) ys → AllByRecursion (λ x. p x ≡ true) (xs ++ ys) }
    ensures zeros { (n i : ℕ) → slice_index (replicate n 0) i ≡ 0 }
    ensures pairs { (xs ys : List ℕ) → length xs ≡ length ys → length (zip xs ys) ≡ length xs }
    ensures tests { (n : ℕ) (answer : Bool) → answer ≡ (n == 0) → answer ≡ true → n ≡ 0 }
    ensures errors { (r : Result ℕ ℕ) (was now : ℕ) → IsErrAnd r (λ e. e ≡ was) → r ≡ Err now → was ≡ now }
    ensures options { (x y : ℕ) → Some x ≡ Some y → x ≡ y }
    ensures counts { (p : ℕ → Bool) (xs : List ℕ) (i x : ℕ) → i < length xs
        → count_by p (slice_set xs i x) + one_if (p (slice_index xs i)) ≡ count_by p xs + one_if (p x) }
{}
