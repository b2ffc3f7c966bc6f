//! What holds of the whole table.
ghost use Rattle.std.specs.Prelude.{◌≡◌, ℕ, ◌+◌, ◌*◌, ◌/◌, ◌%◌, ◌<◌, ◌≤◌};
ghost use Rattle.gh_class.specs.Classes.{slot_of, pages_of, slots_of, IsClassOf, class_number, large_pages, size_class_of, slot_words};
ghost use Rattle.gh_class.specs.declared.class.SizeClass.TheVariants.{Small, Large};
ghost use Rattle.gh_class.specs.declared.class.TheConstants.{MOST_TYPE_WORDS};

/// The laws of the table. The call does nothing: its contract is what a proof wants of it.
pub fn size_class_laws()
    // Slots rise with the class.
    ensures rises { (c d : ℕ) → c < d → d < 25 → slot_of c < slot_of d }
    // A slot has 8 to 32,768 bytes, and a span 1 to 4 pages.
    ensures least_slot { (c : ℕ) → c < 25 → 8 ≤ slot_of c }
    ensures greatest_slot { (c : ℕ) → c < 25 → slot_of c ≤ 32768 }
    ensures some_page { (c : ℕ) → c < 25 → 1 ≤ pages_of c }
    ensures few_pages { (c : ℕ) → c < 25 → pages_of c ≤ 4 }
    // A span has as many slots as its pages hold.
    ensures fit { (c : ℕ) → c < 25 → slots_of c * slot_of c ≤ 8192 * pages_of c }
    ensures full { (c : ℕ) → c < 25 → 8192 * pages_of c < (slots_of c + 1) * slot_of c }
    ensures whole_words { (c : ℕ) → c < 25 → slot_of c % 8 ≡ 0 }
    ensures some_slot { (c : ℕ) → c < 25 → 1 ≤ slots_of c }
    ensures few_slots { (c : ℕ) → c < 25 → slots_of c ≤ 1024 }
    // The number that computes is that of the class, and an object has no other class.
    ensures number { (bytes : ℕ) → bytes ≤ 32768 → IsClassOf bytes (class_number bytes) }
    ensures only { (bytes c : ℕ) → IsClassOf bytes c → c ≡ class_number bytes }
    // An object is small exactly where its bytes fit the largest slot, and its class is then that of the table.
    ensures small { (words : ℕ) → 8 * words ≤ 32768 → size_class_of words ≡ Small (class_number (8 * words)) }
    ensures large { (words : ℕ) → 32768 < 8 * words → size_class_of words ≡ Large }
    // The slot of a small object is that of its class, and a large one's slot is whole pages.
    ensures small_slot { (words : ℕ) → 8 * words ≤ 32768 → slot_words words ≡ slot_of (class_number (8 * words)) / 8 }
    ensures large_slot { (words : ℕ) → 32768 < 8 * words → slot_words words ≡ 1024 * large_pages words }
    // An object fits its slot.
    ensures holds { (words : ℕ) → words ≤ slot_words words }
    ensures bounded { (words : ℕ) → words ≤ MOST_TYPE_WORDS → slot_words words ≤ MOST_TYPE_WORDS }
{}
