//! What the definitions promise of each text.

ghost use Rattle.std.specs.Prelude.{◌≡◌, ℕ, ◌+◌, ◌≤◌, ◌⊎◌, length, List, IsTrue, take};
ghost use Rattle.gh_script.specs.Words.{is_name};
ghost use Rattle.gh_dump.specs.declared.fault.DumpWhy.{DumpWhy};
ghost use Rattle.gh_dump.specs.Certificate.{CertifiesReach};
ghost use Rattle.gh_dump.specs.Items.{items_of, letters_number};
ghost use Rattle.gh_dump.specs.Verdict.{Accepts, Faults, HaveOneVerdict, most_bytes};

/// A text that is accepted lists exactly the objects that its globals reach by its fields, and each once.
pub fn accepted_texts_certify()
    ensures { (text : List ℕ) (n : ℕ) → Accepts text n → CertifiesReach (items_of text) n }
{}

/// Each text is accepted, with one number of objects, or refused, at one line for one cause, and never both. Of a text that is too long
/// no byte counts behind the first that is too many.
pub fn one_verdict()
    ensures some { (text : List ℕ) → ((n : ℕ) × Accepts text n) ⊎ ((line : ℕ) × (why : DumpWhy) × Faults text line why) }
    ensures not_both { (text : List ℕ) (n line : ℕ) (why : DumpWhy) → Accepts text n → Faults text line why → ⊥ }
    ensures one_count { (text : List ℕ) (m n : ℕ) → Accepts text m → Accepts text n → m ≡ n }
    ensures one_fault { (text : List ℕ) (m n : ℕ) (v w : DumpWhy) → Faults text m v → Faults text n w → (m ≡ n) × (v ≡ w) }
    ensures short { (text : List ℕ) (n : ℕ) → Accepts text n → length text ≤ most_bytes }
    ensures cut { (text : List ℕ) → HaveOneVerdict (take (most_bytes + 1) text) text }
{}

/// The number that stands for a goroutine's letters tells its name: two names with one number are one.
pub fn letters_tell_names()
    ensures { (a b : List ℕ) → IsTrue (is_name a) → IsTrue (is_name b) → letters_number a ≡ letters_number b → a ≡ b }
{}
